//! The logs of services of a network: BIND, Exim, Nagios, Zeek, Postfix, Dovecot, OpenLDAP, dhcpd, dnsmasq, CoreDNS, Unbound and
//! the transfers of FTP.

pub const SERVICES: &str = r##"
# The queries that BIND 9 logs (its Administrator Reference Manual, logging, the category "queries").
BIND9_TIMESTAMP=%{MONTHDAY2}-%{MONTH}-%{YEAR4} %{TIME}
BIND9_CLASS=(?:IN|CH|HS|CLASS[0-9]+)
BIND9_FLAGS=[+-][0-9A-Z()]*
BIND9CLIENT=client (?:@0x[0-9a-f]+ )?%{IP:clientip}#%{PORT:clientport:int} \([^()]+\)
BIND9=%{BIND9_TIMESTAMP:timestamp} (?:queries: )?(?:%{LOGLEVEL:loglevel}: )?%{BIND9CLIENT}: (?:view [^:]+: )?query: %{NOTSPACE:query} %{BIND9_CLASS} %{NOTSPACE:querytype} %{BIND9_FLAGS:queryflags} \(%{IP:dns}\).*

# The main log of Exim (its Specification, "Log files"), and parts of its lines. The address is that of the sender or of a
# recipient.
EXIM_MSGID=[0-9A-Za-z]{6}-(?:[0-9A-Za-z]{6}-[0-9A-Za-z]{2}|[0-9A-Za-z]{11}-[0-9A-Za-z]{4})
EXIM_FLAGS=(?:<=|\(=|[=*>-]>|\*\*|==)
EXIM_DATE=%{YEAR4:exim_year}-%{MONTHNUM2:exim_month}-%{MONTHDAY2:exim_day} %{TIME:exim_time}
EXIM_PID=\[%{POSINT}\]
EXIM_QT=(?:[0-9]+[ywdhms])+
EXIMNAME=[^\s()]+
EXIM_REMOTE_HOST=H=(?:%{EXIMNAME:remote_hostname} )?(?:\(%{EXIMNAME:remote_heloname}\) )?\[%{IP:remote_host}\]
EXIM_INTERFACE=I=\[%{IP:exim_interface}\]:%{PORT:exim_interface_port:int}
EXIM_PROTOCOL=P=%{NOTSPACE:protocol}
EXIM_MSG_SIZE=S=%{NONNEGINT:exim_msg_size:int}
EXIM_HEADER_ID=id=%{NOTSPACE:exim_header_id}
EXIM_SUBJECT=T=%{QS:exim_subject}
EXIM=%{TIMESTAMP_ISO8601:timestamp} (?:%{EXIM_PID:exim_pid} )?%{EXIM_MSGID:exim_msgid} (?:%{EXIM_FLAGS:exim_flags} %{NOTSPACE:exim_address} ?)?%{GREEDYDATA:message}

# The log of Nagios (Nagios Core's documentation, and its source base/logging.c). NAGIOSLOGLINE takes all of them, and a service
# or a name that some don't have has no key. NAGIOSSTATELINE is for the states with which a log begins, which have other keys.
NAGIOSTIME=\[%{NONNEGINT:nagios_epoch:int}\]
NAGIOSFIELD=[^;]*
NAGIOSSTATE=(?:OK|WARNING|CRITICAL|UNKNOWN|UP|DOWN|UNREACHABLE|PENDING)
NAGIOSLEVEL=(?:HARD|SOFT)
NAGIOSCHANGE=(?:STARTED|STOPPED|CANCELLED|DISABLED)
NAGIOSHOST=%{NAGIOSFIELD:nagios_hostname}
NAGIOSSERVICE=%{NAGIOSFIELD:nagios_hostname};%{NAGIOSFIELD:nagios_service}
NAGIOSTRY=%{NAGIOSSTATE:nagios_state};%{NAGIOSLEVEL:nagios_statelevel};%{NONNEGINT:nagios_attempt:int};%{GREEDYDATA:nagios_message}
NAGIOSCURRENT=%{NAGIOSSTATE:nagios_state};%{NAGIOSLEVEL:nagios_statetype};%{NONNEGINT:nagios_statecode:int};%{GREEDYDATA:nagios_message}
NAGIOSNOTE=%{NAGIOSFIELD:nagios_state};%{NAGIOSFIELD:nagios_contact};%{GREEDYDATA:nagios_message}
NAGIOSHANDLER=%{NAGIOSSTATE:nagios_state};%{NAGIOSLEVEL:nagios_statelevel};%{NONNEGINT:nagios_attempt:int};%{NAGIOSFIELD:nagios_event_handler_name}
NAGIOS_CURRENT_HOST_STATE=%{NAGIOS_TYPE_CURRENT_HOST_STATE:nagios_type}: %{NAGIOSHOST};%{NAGIOSCURRENT}
NAGIOS_CURRENT_SERVICE_STATE=%{NAGIOS_TYPE_CURRENT_SERVICE_STATE:nagios_type}: %{NAGIOSSERVICE};%{NAGIOSCURRENT}
NAGIOS_HOST_ALERT=%{NAGIOS_TYPE_HOST_ALERT:nagios_type}: %{NAGIOSHOST};%{NAGIOSTRY}
NAGIOS_SERVICE_ALERT=%{NAGIOS_TYPE_SERVICE_ALERT:nagios_type}: %{NAGIOSSERVICE};%{NAGIOSTRY}
NAGIOS_HOST_NOTIFICATION=%{NAGIOS_TYPE_HOST_NOTIFICATION:nagios_type}: %{NAGIOSFIELD:nagios_notifyname};%{NAGIOSHOST};%{NAGIOSNOTE}
NAGIOS_SERVICE_NOTIFICATION=%{NAGIOS_TYPE_SERVICE_NOTIFICATION:nagios_type}: %{NAGIOSFIELD:nagios_notifyname};%{NAGIOSSERVICE};%{NAGIOSNOTE}
NAGIOS_HOST_FLAPPING_ALERT=%{NAGIOS_TYPE_HOST_FLAPPING_ALERT:nagios_type}: %{NAGIOSHOST};%{NAGIOSCHANGE:nagios_state};%{GREEDYDATA:nagios_message}
NAGIOS_SERVICE_FLAPPING_ALERT=%{NAGIOS_TYPE_SERVICE_FLAPPING_ALERT:nagios_type}: %{NAGIOSSERVICE};%{NAGIOSCHANGE:nagios_state};%{GREEDYDATA:nagios_message}
NAGIOS_HOST_DOWNTIME_ALERT=%{NAGIOS_TYPE_HOST_DOWNTIME_ALERT:nagios_type}: %{NAGIOSHOST};%{NAGIOSCHANGE:nagios_state};%{GREEDYDATA:nagios_comment}
NAGIOS_SERVICE_DOWNTIME_ALERT=%{NAGIOS_TYPE_SERVICE_DOWNTIME_ALERT:nagios_type}: %{NAGIOSSERVICE};%{NAGIOSCHANGE:nagios_state};%{GREEDYDATA:nagios_comment}
NAGIOS_PASSIVE_HOST_CHECK=%{NAGIOS_TYPE_PASSIVE_HOST_CHECK:nagios_type}: %{NAGIOSHOST};%{NONNEGINT:nagios_state:int};%{GREEDYDATA:nagios_comment}
NAGIOS_PASSIVE_SERVICE_CHECK=%{NAGIOS_TYPE_PASSIVE_SERVICE_CHECK:nagios_type}: %{NAGIOSSERVICE};%{NONNEGINT:nagios_state:int};%{GREEDYDATA:nagios_comment}
NAGIOS_HOST_EVENT_HANDLER=%{NAGIOS_TYPE_HOST_EVENT_HANDLER:nagios_type}: %{NAGIOSHOST};%{NAGIOSHANDLER}
NAGIOS_SERVICE_EVENT_HANDLER=%{NAGIOS_TYPE_SERVICE_EVENT_HANDLER:nagios_type}: %{NAGIOSSERVICE};%{NAGIOSHANDLER}
NAGIOS_TYPE_CURRENT_HOST_STATE=CURRENT HOST STATE
NAGIOS_TYPE_CURRENT_SERVICE_STATE=CURRENT SERVICE STATE
NAGIOS_TYPE_HOST_ALERT=HOST ALERT
NAGIOS_TYPE_SERVICE_ALERT=SERVICE ALERT
NAGIOS_TYPE_HOST_NOTIFICATION=HOST NOTIFICATION
NAGIOS_TYPE_SERVICE_NOTIFICATION=SERVICE NOTIFICATION
NAGIOS_TYPE_HOST_FLAPPING_ALERT=HOST FLAPPING ALERT
NAGIOS_TYPE_SERVICE_FLAPPING_ALERT=SERVICE FLAPPING ALERT
NAGIOS_TYPE_HOST_DOWNTIME_ALERT=HOST DOWNTIME ALERT
NAGIOS_TYPE_SERVICE_DOWNTIME_ALERT=SERVICE DOWNTIME ALERT
NAGIOS_TYPE_PASSIVE_HOST_CHECK=PASSIVE HOST CHECK
NAGIOS_TYPE_PASSIVE_SERVICE_CHECK=PASSIVE SERVICE CHECK
NAGIOS_TYPE_HOST_EVENT_HANDLER=HOST EVENT HANDLER
NAGIOS_TYPE_SERVICE_EVENT_HANDLER=SERVICE EVENT HANDLER
NAGIOSTYPE=[A-Z]+(?: [A-Z]+)+
NAGIOSCHECK=%{NAGIOSFIELD:nagios_hostname};(?:%{NAGIOSFIELD:nagios_service};)?%{NAGIOSSTATE:nagios_state};%{NAGIOSLEVEL:nagios_statelevel};%{NONNEGINT:nagios_attempt:int};
NAGIOSSTATETYPE=CURRENT (?:HOST|SERVICE) STATE
NAGIOSSTATELINE=%{NAGIOSTIME} %{NAGIOSSTATETYPE:nagios_type}: %{NAGIOSFIELD:nagios_hostname};(?:%{NAGIOSFIELD:nagios_service};)?%{NAGIOSCURRENT}
NAGIOSLOGLINE=%{NAGIOSTIME} (?:%{NAGIOSTYPE:nagios_type}: %{NAGIOSCHECK}?)?%{GREEDYDATA:nagios_message}

# The logs of Zeek, which was Bro ("Log Files" in its manual), whose fields are separated by tabs. A field that is `-` has no key.
BROFIELD=[^\t]+
BROBOOL=[TF]
BROHEAD=%{NUMBER:ts:float}\t%{NOTSPACE:uid}\t%{IP:orig_h}\t%{PORT:orig_p:int}\t%{IP:resp_h}\t%{PORT:resp_p:int}
BROCONNSIZES=(?:-|%{NUMBER:duration:float})\t(?:-|%{NONNEGINT:orig_bytes:int})\t(?:-|%{NONNEGINT:resp_bytes:int})
BROCONNSTATE=(?:-|%{WORD:conn_state})\t(?:-|%{BROBOOL:local_orig})\t(?:(?:-|%{BROBOOL:local_resp})\t)?(?:-|%{NONNEGINT:missed_bytes:int})\t(?:-|%{BROFIELD:history})
BROCONNCOUNTS=(?:-|%{NONNEGINT:orig_pkts:int})\t(?:-|%{NONNEGINT:orig_ip_bytes:int})\t(?:-|%{NONNEGINT:resp_pkts:int})\t(?:-|%{NONNEGINT:resp_ip_bytes:int})
BRO_CONN=%{BROHEAD}\t%{WORD:proto}\t(?:-|%{BROFIELD:service})\t%{BROCONNSIZES}\t%{BROCONNSTATE}\t%{BROCONNCOUNTS}\t(?:-|%{BROFIELD:tunnel_parents})
BRODNSQUERY=(?:-|%{NONNEGINT:trans_id:int})\t(?:(?:-|%{NUMBER:rtt:float})\t)?(?:-|%{BROFIELD:query})\t(?:-|%{NONNEGINT:qclass:int})\t(?:-|%{BROFIELD:qclass_name})\t(?:-|%{NONNEGINT:qtype:int})\t(?:-|%{BROFIELD:qtype_name})
BRODNSREPLY=(?:-|%{NONNEGINT:rcode:int})\t(?:-|%{BROFIELD:rcode_name})\t%{BROBOOL:AA}\t%{BROBOOL:TC}\t%{BROBOOL:RD}\t%{BROBOOL:RA}\t%{NONNEGINT:Z:int}\t(?:-|%{BROFIELD:answers})\t(?:-|%{BROFIELD:TTLs})\t%{BROBOOL:rejected}
BRO_DNS=%{BROHEAD}\t%{WORD:proto}\t%{BRODNSQUERY}\t%{BRODNSREPLY}
BROHTTPREQUEST=%{NONNEGINT:trans_depth:int}\t(?:-|%{BROFIELD:method})\t(?:-|%{BROFIELD:domain})\t(?:-|%{BROFIELD:uri})\t(?:-|%{BROFIELD:referrer})\t(?:-|%{BROFIELD:user_agent})
BROHTTPRESULT=%{NONNEGINT:request_body_len:int}\t%{NONNEGINT:response_body_len:int}\t(?:-|%{NONNEGINT:status_code:int})\t(?:-|%{BROFIELD:status_msg})\t(?:-|%{NONNEGINT:info_code:int})\t(?:-|%{BROFIELD:info_msg})\t(?:-|%{BROFIELD:filename})
BROHTTPCLIENT=%{BROFIELD:bro_tags}\t(?:-|%{BROFIELD:username})\t(?:-|%{BROFIELD:password})\t(?:-|%{BROFIELD:proxied})
BROHTTPFILES=(?:-|%{BROFIELD:orig_fuids})\t(?:-|%{BROFIELD:orig_mime_types})\t(?:-|%{BROFIELD:resp_fuids})\t(?:-|%{BROFIELD:resp_mime_types})
BRO_HTTP=%{BROHEAD}\t%{BROHTTPREQUEST}\t%{BROHTTPRESULT}\t%{BROHTTPCLIENT}\t%{BROHTTPFILES}
BROFILEHEAD=%{NUMBER:ts:float}\t%{NOTSPACE:fuid}\t(?:-|%{IP:tx_hosts})\t(?:-|%{IP:rx_hosts})\t(?:-|%{NOTSPACE:conn_uids})\t(?:-|%{BROFIELD:source})\t%{NONNEGINT:depth:int}\t(?:-|%{BROFIELD:analyzers})\t(?:-|%{BROFIELD:mime_type})\t(?:-|%{BROFIELD:filename})
BROFILESIZES=(?:-|%{NUMBER:duration:float})\t(?:-|%{BROBOOL:local_orig})\t(?:-|%{BROBOOL:is_orig})\t%{NONNEGINT:seen_bytes:int}\t(?:-|%{NONNEGINT:total_bytes:int})\t%{NONNEGINT:missing_bytes:int}\t%{NONNEGINT:overflow_bytes:int}\t%{BROBOOL:timedout}
BRO_FILES=%{BROFILEHEAD}\t%{BROFILESIZES}\t(?:-|%{NOTSPACE:parent_fuid})\t(?:-|%{BROFIELD:md5})\t(?:-|%{BROFIELD:sha1})\t(?:-|%{BROFIELD:sha256})\t(?:-|%{BROFIELD:extracted})

# The lines of syslog of Postfix: clients (smtpd), messages in the queue (cleanup, qmgr) and deliveries (smtp, lmtp, local, pipe), under
# the names that Postfix uses (postconf(5): syslog_name, enable_long_queue_ids, delay_logging_resolution_limit, and its
# SMTPD_POLICY_README for those of the client). An address that is empty or `unknown` and a relay that is `none` have no key. Any
# other line of Postfix has a `message`.
POSTFIXPROGRAM=postfix[0-9A-Za-z-]*(?:/[0-9A-Za-z-]+)+
POSTFIXBASE=%{SYSLOGTIME:timestamp} %{SYSLOGHOST:logsource} %{POSTFIXPROGRAM:program}\[%{NONNEGINT:pid:int}\]:
POSTFIXQUEUEID=(?:[0-9A-F]{6,}|[0-9B-DF-HJ-NP-TV-Zb-df-hj-np-tv-z]{10,})
POSTFIXADDRESS=[^<>]+
POSTFIXVALUE=[^\s,]+
POSTFIXHOST=[^\s\[\]]+
POSTFIXCLIENT=%{POSTFIXHOST:client_name}\[(?:unknown|%{IP:client_address})\](?::%{PORT:client_port:int})?
POSTFIXEVENT=(?:(?:dis)?connect|(?:lost connection|timeout|too many errors) after [A-Z-]+(?: \([0-9]+ bytes\))?|(?:milter-)?reject: [A-Z-]+)
POSTFIXCOUNTS=[a-z]+=[0-9/]+(?: [a-z]+=[0-9/]+)*
POSTFIXSASL=, sasl_method=%{POSTFIXVALUE:sasl_method}(?:, sasl_username=%{POSTFIXVALUE:sasl_username})?
POSTFIXSESSION=(?:%{POSTFIXEVENT:event} from |client=)%{POSTFIXCLIENT}(?:%{POSTFIXSASL}| %{POSTFIXCOUNTS:pairs}|: %{GREEDYDATA:details})?
POSTFIXENVELOPE=from=<%{POSTFIXADDRESS:from}?>, size=%{NONNEGINT:size:int}, nrcpt=%{NONNEGINT:nrcpt:int} \(queue active\)
POSTFIXDELAYS=[0-9.]+(?:/[0-9.]+){3}
POSTFIXDSN=[245]\.[0-9]{1,3}\.[0-9]{1,3}
POSTFIXSTATUS=[a-z]+
POSTFIXRECIPIENT=to=<%{POSTFIXADDRESS:to}>(?:, orig_to=<%{POSTFIXADDRESS:orig_to}>)?, relay=(?:none|%{POSTFIXVALUE:relay})(?:, conn_use=%{NONNEGINT:conn_use:int})?
POSTFIXDELIVERY=%{POSTFIXRECIPIENT}, delay=%{NUMBER:delay:float}, delays=%{POSTFIXDELAYS:delays}, dsn=%{POSTFIXDSN:dsn}, status=%{POSTFIXSTATUS:status} \(%{GREEDYDATA:reason}\)
POSTFIXID=message-id=<%{POSTFIXADDRESS:message-id}>
POSTFIXLINE=%{POSTFIXBASE} (?:(?:NOQUEUE|%{POSTFIXQUEUEID:queue_id}): )?(?:%{POSTFIXDELIVERY}|%{POSTFIXENVELOPE}|%{POSTFIXID}|%{POSTFIXSESSION}|%{GREEDYDATA:message})

# The logins of Dovecot (its documentation, "login_log_format_elements"), in a log of its own and in syslog. A user that is empty has
# no key.
DOVECOTSERVICE=[a-z0-9]+-login
DOVECOTVALUE=[^<>]+
DOVECOTWORD=[^\s,]+
DOVECOTSECURED=(?:secured|TLS[^,]*)
DOVECOTADDRESSES=rip=%{IP:rip}, lip=%{IPTABLESADDRESS:lip}
DOVECOTELEMENTS=(?:user=<%{DOVECOTVALUE:user}?>, )?(?:method=%{DOVECOTWORD:method}, )?%{DOVECOTADDRESSES}(?:, mpid=%{NONNEGINT:mpid:int})?(?:, %{DOVECOTSECURED:secured})?(?:, session=<%{DOVECOTVALUE:session}>)?
DOVECOTLOGIN=%{SYSLOGTIME:timestamp} (?:%{SYSLOGHOST:logsource} %{PROG:program}(?:\[%{NONNEGINT:pid:int}\])?: )?%{DOVECOTSERVICE:service}: (?:%{LOGLEVEL:level}: )?%{DATA:event}: %{DOVECOTELEMENTS}

# The lines of syslog of slapd, OpenLDAP's server, at its level `stats` (man slapd.conf, loglevel; the OpenLDAP Administrator's
# Guide). Times of an operation are there since version 2.5.
SLAPDPEER=(?:IP=\[?%{IP:clientip}\]?:%{PORT:clientport:int}|PATH=%{NOTSPACE:path})
SLAPDLISTENER=[^()]+
SLAPDCONNECTION=fd=%{NONNEGINT:fd:int} (?:ACCEPT from %{SLAPDPEER} \(%{SLAPDLISTENER:listener}\)|%{GREEDYDATA:message})
SLAPDTIMES= qtime=%{NUMBER:qtime:float} etime=%{NUMBER:etime:float}
SLAPDTEXT=.+
SLAPDRESULT=(?:tag=%{NONNEGINT:tag:int}|oid=%{NOTSPACE:oid}?) err=%{NONNEGINT:err:int}%{SLAPDTIMES}?(?: nentries=%{NONNEGINT:nentries:int})? text=%{SLAPDTEXT:text}?
SLAPDSEARCH=base="%{INQUOTES:base}" scope=%{NONNEGINT:scope:int} deref=%{NONNEGINT:deref:int} filter="%{INQUOTES:filter}"
SLAPDBIND= (?:method=%{NONNEGINT:method:int}|mech=%{NOTSPACE:mech}(?: bind_ssf=%{NONNEGINT:bind_ssf:int})? ssf=%{NONNEGINT:ssf:int})
SLAPDENTRY=dn="%{INQUOTES:dn}"%{SLAPDBIND}?
SLAPDOPERATION=(?:SEARCH RESULT|[A-Z]+)
SLAPDREQUEST=op=%{NONNEGINT:op:int} %{SLAPDOPERATION:operation}(?: (?:%{SLAPDRESULT}|%{SLAPDSEARCH}|%{SLAPDENTRY}|%{GREEDYDATA:details}))?
SLAPD=conn=%{INT:conn:int} (?:%{SLAPDCONNECTION}|%{SLAPDREQUEST})
SLAPDLINE=%{SYSLOGBASE} %{SLAPD}

# The requests of clients and the answers that ISC's dhcpd logs (man dhcpd; its source server/dhcp.c).
DHCPDTYPE=DHCP(?:DISCOVER|OFFER|REQUEST|DECLINE|ACK|NAK|RELEASE|INFORM)
DHCPDNAME=[^()]+
DHCPDVIA=[^\s:]+
DHCPDADDRESS=(?:on|for|of|from) %{IPV4:ip}(?: \(%{IPV4:server}\))?
DHCPDCLIENT=(?:to|from) %{COMMONMAC:mac}(?: \(%{DHCPDNAME:hostname}\))?
DHCPD=%{DHCPDTYPE:type}(?: %{DHCPDADDRESS})?(?: %{DHCPDCLIENT})? via %{DHCPDVIA:via}(?:(?: |: )%{GREEDYDATA:message})?
DHCPDLINE=%{SYSLOGBASE} %{DHCPD}

# The queries that dnsmasq logs (man dnsmasq, --log-queries, also with `extra`), in syslog and in a log of its own, which has no host.
DNSMASQPROGRAM=dnsmasq
DNSMASQBASE=%{SYSLOGTIME:timestamp} (?:%{SYSLOGHOST:logsource} )?%{DNSMASQPROGRAM:program}(?:\[%{NONNEGINT:pid:int}\])?:
DNSMASQEXTRA=%{NONNEGINT:serial:int} %{IPTABLESADDRESS:requestor}/%{PORT:port:int}
DNSMASQACTION=[^\s\[\]]+
DNSMASQTYPE=[^\s\[\]]+
DNSMASQ=%{DNSMASQACTION:action}(?:\[%{DNSMASQTYPE:type}\])? %{NOTSPACE:name} (?:from %{IP:client}|to %{NOTSPACE:server}|is %{GREEDYDATA:answer})
DNSMASQLINE=%{DNSMASQBASE} (?:%{DNSMASQEXTRA} )?%{DNSMASQ}

# The queries that CoreDNS logs (its plugin `log`, the format `common`, which is the default one). A field that is `-` has no key.
COREDNSCLIENT=\[?%{IP:remote}\]?:%{PORT:port:int}
COREDNSBOOL=(?:true|false)
COREDNSQUERY=%{NONNEGINT:id:int} "%{WORD:type} %{WORD:class} %{NOTSPACE:name} %{WORD:proto} %{NONNEGINT:size:int} %{COREDNSBOOL:do} %{NONNEGINT:bufsize:int}"
COREDNSANSWER=(?:-|%{WORD:rcode}) (?:-|%{NOTSPACE:rflags}) %{NONNEGINT:rsize:int} %{NUMBER:duration:float}s
COREDNS=(?:%{TIMESTAMP_ISO8601:timestamp} )?\[%{LOGLEVEL:level}\] %{COREDNSCLIENT} - %{COREDNSQUERY} %{COREDNSANSWER}

# The log of Unbound, in a file and in syslog (man unbound.conf: log-queries, log-replies, log-tag-queryreply, log-time-ascii). A line is
# the answer to a query, a query, or another message. A thread has a hexadecimal number.
UNBOUNDLEVEL=(?:fatal error|error|warning|notice|info|debug|query|reply)
UNBOUNDTHREAD=[0-9a-f]+
UNBOUNDSOURCE=(?:\[%{NONNEGINT:epoch:int}\]|%{SYSLOGTIME:timestamp}(?: %{SYSLOGHOST:logsource})?) %{PROG:program}(?:(?:\[[0-9]+\])?: )?
UNBOUNDBASE=%{UNBOUNDSOURCE}\[%{NONNEGINT:pid:int}:%{UNBOUNDTHREAD:thread}\] %{UNBOUNDLEVEL:level}:
UNBOUNDCODE=[A-Z0-9]+
UNBOUNDCACHED=[01]
UNBOUNDREPLY=%{UNBOUNDCODE:rcode} %{NUMBER:time:float} %{UNBOUNDCACHED:cached:int} %{NONNEGINT:size:int}
UNBOUNDQUERY=%{IP:client} %{NOTSPACE:name} %{UNBOUNDCODE:type} %{UNBOUNDCODE:class}(?: %{UNBOUNDREPLY})?
UNBOUND=%{UNBOUNDBASE} (?:%{UNBOUNDQUERY}|%{GREEDYDATA:message})

# The transfers that wu-ftpd, ProFTPD and vsftpd log (man xferlog). An action that is `_` and a user that is `*` have no key.
XFERLOGACTION=[CUT]+
XFERLOGFILE=%{NONNEGINT:file_size:int} %{NOTSPACE:filename} %{XFERLOGTYPE:transfer_type} (?:_|%{XFERLOGACTION:special_action_flag}) %{XFERLOGDIRECTION:direction}
XFERLOGTYPE=[ab]
XFERLOGDIRECTION=[oid]
XFERLOGMODE=[agr]
XFERLOGMETHOD=[01]
XFERLOGSTATUS=[ci]
XFERLOGUSER=%{XFERLOGMODE:access_mode} %{NOTSPACE:username} %{NOTSPACE:service_name} %{XFERLOGMETHOD:authentication_method:int} (?:\*|%{NOTSPACE:authenticated_user_id})
XFERLOG=%{TIMESTAMP_CTIME:timestamp} %{NONNEGINT:transfer_time:int} %{IPORHOST:remote_host} %{XFERLOGFILE} %{XFERLOGUSER} %{XFERLOGSTATUS:completion_status}
"##;
