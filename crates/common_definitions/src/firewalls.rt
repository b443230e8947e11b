//! The logs of firewalls: Cisco ASA and FTD, Juniper (Junos and ScreenOS), Shorewall, FortiGate, PAN-OS and Windows, the alerts of
//! Snort and Suricata, and fail2ban.

pub const FIREWALLS: &str = r##"
# Cisco ASA and FTD ("Cisco Secure Firewall ASA Series Syslog Messages"): the head of a line with the tag of its message, the
# line, and the messages alone, under their numbers. Since messages have keys in common, a run has a pattern for each of them.
CISCOTIMESTAMP=%{MONTH} +%{MONTHDAY}(?: %{YEAR4})? %{TIME}
CISCOTIME=(?:%{CISCOTIMESTAMP}|%{TIMESTAMP_RFC3339})
CISCOTAG=[0-9A-Z]+-[0-7]-[0-9A-Z_]+
CISCO_TAGGED_SYSLOG=(?:<%{SYSLOGPRIORITY:syslog_pri:int}>)?%{CISCOTIME:timestamp}(?: %{SYSLOGHOST:sysloghost})?(?: ?:)? [%]%{CISCOTAG:ciscotag}:
CISCOLINE=%{CISCO_TAGGED_SYSLOG} %{GREEDYDATA:message}

# Parts of messages. A port may be a name, and an address a name.
CISCO_ACTION=(?:Built|Teardown|Deny|Denied|denied by ACL|denied|requested|permitted|discarded|est-allowed|Dropping|created|deleted)
CISCO_DIRECTION=(?:[Ii]n|[Oo]ut)bound
CISCO_INTERVAL=(?:first hit|[0-9]+-second interval)
CISCO_REASON=[\w-]+(?: [\w-]+)*
CISCO_XLATE_TYPE=(?:static|dynamic)
CISCOUNIT=\((?:Primary|Secondary)\)
CISCOINTERFACE=[^\s:/().]+
CISCOPORT=[0-9A-Za-z-]+
CISCOUSER=[^()]*
CISCOPOLICY=[^\s"]+
CISCOVALUE=[^\s,()]+
CISCODURATION=[0-9]+:[0-9]{2}:[0-9]{2}
CISCOSRC=%{IPORHOST:src_ip}(?:/%{CISCOPORT:src_port:int})?
CISCODST=%{IPORHOST:dst_ip}(?:/%{CISCOPORT:dst_port:int})?
CISCOSRCEND=%{CISCOINTERFACE:src_interface}:%{CISCOSRC}
CISCODSTEND=%{CISCOINTERFACE:dst_interface}:%{CISCODST}
CISCOSRCUSER=\(%{CISCOUSER:src_fwuser}\)
CISCODSTUSER=\(%{CISCOUSER:dst_fwuser}\)
CISCOSRCMAPPED= \(%{IPORHOST:src_mapped_ip}/%{CISCOPORT:src_mapped_port:int}\)
CISCODSTMAPPED= \(%{IPORHOST:dst_mapped_ip}/%{CISCOPORT:dst_mapped_port:int}\)
CISCOICMP=\(type %{NONNEGINT:icmp_type:int}, code %{NONNEGINT:icmp_code:int}\)
CISCOHASH=0x[0-9a-f]+
CISCOHASHES=\[%{CISCOHASH:hashcode1}, %{CISCOHASH:hashcode2}\]
CISCOHITS=hit-cnt %{NONNEGINT:hit_count:int} %{CISCO_INTERVAL:interval} %{CISCOHASHES}
CISCOLISTSRC=%{CISCOINTERFACE:src_interface}/%{IPORHOST:src_ip}\(%{CISCOPORT:src_port:int}\)
CISCOLISTDST=%{CISCOINTERFACE:dst_interface}/%{IPORHOST:dst_ip}\(%{CISCOPORT:dst_port:int}\)

# The messages, of which some have several numbers.
CISCOFW104001=%{CISCOUNIT} Switching to ACTIVE (?:- )?%{GREEDYDATA:switch_reason}
CISCOFW104002=%{CISCOUNIT} Switching to STANDBY (?:- )?%{GREEDYDATA:switch_reason}
CISCOFW104003=%{CISCOUNIT} Switching to FAILED\.
CISCOFW104004=%{CISCOUNIT} Switching to OK\.
CISCOFW105003=%{CISCOUNIT} Monitoring on [Ii]nterface %{CISCOINTERFACE:interface_name} waiting
CISCOFW105004=%{CISCOUNIT} Monitoring on [Ii]nterface %{CISCOINTERFACE:interface_name} normal
CISCOFW105005=%{CISCOUNIT} Lost Failover communications with mate on [Ii]nterface %{CISCOINTERFACE:interface_name}
CISCOFW105008=%{CISCOUNIT} Testing [Ii]nterface %{CISCOINTERFACE:interface_name}
CISCOFW105009=%{CISCOUNIT} Testing on [Ii]nterface %{CISCOINTERFACE:interface_name} (?:Passed|Failed)
CISCOFW106001=%{CISCO_DIRECTION:direction} %{WORD:protocol} connection %{CISCO_ACTION:action} from %{CISCOSRC} to %{CISCODST} flags %{DATA:tcp_flags} +on interface %{CISCOINTERFACE:interface}
CISCOFW106006_106007_106010=%{CISCO_ACTION:action} %{CISCO_DIRECTION:direction} (?:protocol )?%{WORD:protocol} (?:from |src %{CISCOINTERFACE:src_interface}:)%{CISCOSRC}%{CISCOSRCUSER}? (?:to |dst %{CISCOINTERFACE:dst_interface}:)%{CISCODST}%{CISCODSTUSER}?(?: on interface %{CISCOINTERFACE:interface}| due to %{CISCO_REASON:reason})?
CISCOFW106014=%{CISCO_ACTION:action} %{CISCO_DIRECTION:direction} %{WORD:protocol} src %{CISCOSRCEND}%{CISCOSRCUSER}? dst %{CISCODSTEND}%{CISCODSTUSER}? %{CISCOICMP}
CISCOFW106015=%{CISCO_ACTION:action} %{WORD:protocol} \(%{CISCOUSER:policy_id}\) from %{CISCOSRC} to %{CISCODST} flags %{DATA:tcp_flags} +on interface %{CISCOINTERFACE:interface}
CISCOFW106021=%{CISCO_ACTION:action} %{WORD:protocol} reverse path check from %{IPORHOST:src_ip} to %{IPORHOST:dst_ip} on interface %{CISCOINTERFACE:interface}
CISCOFW106023=%{CISCO_ACTION:action} (?:protocol )?%{WORD:protocol} src %{CISCOSRCEND}%{CISCOSRCUSER}? dst %{CISCODSTEND}%{CISCODSTUSER}?(?: %{CISCOICMP})? by access-group "?%{CISCOPOLICY:policy_id}"? %{CISCOHASHES}
CISCOFW106100=access-list %{CISCOPOLICY:policy_id} %{CISCO_ACTION:action} %{WORD:protocol} %{CISCOLISTSRC}%{CISCOSRCUSER}? -> %{CISCOLISTDST}%{CISCODSTUSER}? %{CISCOHITS}
CISCOFW106100_2_3=access-list %{CISCOPOLICY:policy_id} %{CISCO_ACTION:action} %{WORD:protocol} for user '?%{CISCONAME:src_fwuser}'? %{CISCOLISTSRC} -> %{CISCOLISTDST} %{CISCOHITS}
CISCONAME=[^\s']+
CISCOFW110002=%{CISCO_REASON:reason} for %{WORD:protocol} from %{CISCOSRCEND} to %{CISCODST}
CISCOFW302010=%{NONNEGINT:connection_count:int} in use, %{NONNEGINT:connection_count_max:int} most used
CISCOFW302013_302014_302015_302016=%{CISCO_ACTION:action}(?: %{CISCO_DIRECTION:direction})? %{WORD:protocol} connection %{NONNEGINT:connection_id:int} for %{CISCOSRCEND}%{CISCOSRCMAPPED}?%{CISCOSRCUSER}? to %{CISCODSTEND}%{CISCODSTMAPPED}?%{CISCODSTUSER}?(?: duration %{CISCODURATION:duration} bytes %{NONNEGINT:bytes:int})?(?: %{CISCO_REASON:reason})?(?: \(%{CISCOUSER:user}\))?
CISCOFW302020_302021=%{CISCO_ACTION:action}(?: %{CISCO_DIRECTION:direction})? %{WORD:protocol} connection for faddr %{IPORHOST:dst_ip}/%{NONNEGINT:icmp_seq_num:int}(?:\(%{CISCOUSER:fwuser}\))? gaddr %{IPORHOST:src_xlated_ip}/%{NONNEGINT:icmp_code_xlated:int} laddr %{IPORHOST:src_ip}/%{NONNEGINT:icmp_code:int}(?: \(%{CISCOUSER:user}\))?
CISCOFW304001=%{IPORHOST:src_ip}%{CISCOSRCUSER}? Accessed URL %{IPORHOST:dst_ip}:%{GREEDYDATA:dst_url}
CISCOFW305011=%{CISCO_ACTION:action} %{CISCO_XLATE_TYPE:xlate_type} %{WORD:protocol} translation from %{CISCOSRCEND}%{CISCOSRCUSER}? to %{CISCOINTERFACE:src_xlated_interface}:%{IPORHOST:src_xlated_ip}/%{CISCOPORT:src_xlated_port:int}
CISCOFW313001_313004_313008=%{CISCO_ACTION:action} %{WORD:protocol} type=%{NONNEGINT:icmp_type:int}, (?:code=%{NONNEGINT:icmp_code:int} )?from %{IPORHOST:src_ip} on interface %{CISCOINTERFACE:interface}(?: to %{IPORHOST:dst_ip})?
CISCOERRSRC=%{CISCOINTERFACE:err_src_interface}:%{IPORHOST:err_src_ip}(?:\(%{CISCOUSER:err_src_fwuser}\))?
CISCOERRDST=%{CISCOINTERFACE:err_dst_interface}:%{IPORHOST:err_dst_ip}(?:\(%{CISCOUSER:err_dst_fwuser}\))?
CISCOERRICMP=\(type %{NONNEGINT:err_icmp_type:int}, code %{NONNEGINT:err_icmp_code:int}\)
CISCOORIGSRC=%{IPORHOST:orig_src_ip}/%{CISCOPORT:orig_src_port:int}(?:\(%{CISCOUSER:orig_src_fwuser}\))?
CISCOORIGDST=%{IPORHOST:orig_dst_ip}/%{CISCOPORT:orig_dst_port:int}(?:\(%{CISCOUSER:orig_dst_fwuser}\))?
CISCOFW313005=%{CISCO_REASON:reason} for %{WORD:protocol} error message: %{WORD:err_protocol} src %{CISCOERRSRC} dst %{CISCOERRDST} %{CISCOERRICMP} on %{CISCOINTERFACE:interface} interface\. +Original IP payload: %{WORD:orig_protocol} src %{CISCOORIGSRC} dst %{CISCOORIGDST}
CISCOFW321001=Resource '%{WORD:resource_name}' limit of %{POSINT:resource_limit:int} reached
CISCOFW402117=%{WORD:protocol}: Received a non-IP[Ss]ec packet \(protocol= ?%{WORD:orig_protocol}\) from %{IPORHOST:src_ip} to %{IPORHOST:dst_ip}
CISCOFW402119=%{WORD:protocol}: Received an %{WORD:orig_protocol} packet \(SPI= ?%{CISCOVALUE:spi}, sequence number= ?%{CISCOVALUE:seq_num}\) from %{IPORHOST:src_ip} \((?:user= ?)?%{CISCOUSER:user}\) to %{IPORHOST:dst_ip} that failed anti-replay checking
CISCOFW419001=%{CISCO_ACTION:action} %{WORD:protocol} packet from %{CISCOSRCEND} to %{CISCODSTEND}, reason: %{GREEDYDATA:reason}
CISCOFW419002=%{CISCO_REASON:reason} from %{CISCOSRCEND} to %{CISCODSTEND} with different initial sequence number
CISCOFW500004=%{CISCO_REASON:reason} for protocol=%{WORD:protocol}, from %{CISCOSRC} to %{CISCODST}
CISCOFW602303_602304=%{WORD:protocol}: An %{CISCO_DIRECTION:direction} %{DATA:tunnel_type} SA \(SPI= ?%{CISCOVALUE:spi}\) between %{IPORHOST:src_ip} and %{IPORHOST:dst_ip} \((?:user= ?)?%{CISCOUSER:user}\) has been %{CISCO_ACTION:action}
CISCOFW710001_710002_710003_710005_710006=%{WORD:protocol} (?:request|access) %{CISCO_ACTION:action} from %{CISCOSRC} to %{CISCODSTEND}
CISCONATTED=is(?: not)?
CISCOFW713172=Group = %{DATA:group}, IP = %{IPORHOST:src_ip}, Automatic NAT Detection Status: +Remote end +%{CISCONATTED:is_remote_natted} +behind a NAT device +This +end +%{CISCONATTED:is_local_natted} +behind a NAT device
CISCOBURST=Current burst rate is %{NONNEGINT:drop_rate_current_burst:int} per second, max configured rate is %{NONNEGINT:drop_rate_max_burst:int}
CISCOAVERAGE=Current average rate is %{NONNEGINT:drop_rate_current_avg:int} per second, max configured rate is %{NONNEGINT:drop_rate_max_avg:int}
CISCODROP=[^\s\]]+(?: [^\s\]]+)*
CISCOFW733100=\[ *%{CISCODROP:drop_type} *\] drop %{NOTSPACE:drop_rate_id} exceeded\. +%{CISCOBURST}; %{CISCOAVERAGE}; Cumulative total count is %{NONNEGINT:drop_total_count:int}

# Sessions of Juniper's SRX (Junos, "System Log Explorer", RT_FLOW): those that are closed, created and denied. Newer versions
# write a tag before the service and the kind of a rule before its name.
RT_FLOW_EVENT=RT_FLOW_SESSION_(?:CREATE|CLOSE|DENY)
RTFLOWTAG=0x[0-9a-f]+
RTFLOWRULE=(?:N/A|[a-z]+ rule)
RTFLOWENDS=%{IP:src-ip}/%{PORT:src-port:int}->%{IP:dst-ip}/%{PORT:dst-port:int}(?: %{RTFLOWTAG})? %{NOTSPACE:service}
RTFLOWNAT=%{IP:nat-src-ip}/%{PORT:nat-src-port:int}->%{IP:nat-dst-ip}/%{PORT:nat-dst-port:int}(?: %{RTFLOWTAG})?
RTFLOWRULES=(?:%{RTFLOWRULE} )?%{NOTSPACE:src-nat-rule-name} (?:%{RTFLOWRULE} )?%{NOTSPACE:dst-nat-rule-name} %{NONNEGINT:protocol-id:int}
RTFLOWPOLICY=%{NOTSPACE:policy-name} %{NOTSPACE:from-zone} %{NOTSPACE:to-zone}
RTFLOWBYTES=[0-9]+\(%{NONNEGINT:sent:int}\) [0-9]+\(%{NONNEGINT:received:int}\)
RT_FLOW1=%{RT_FLOW_EVENT:event}: %{DATA:close-reason}: %{RTFLOWENDS} %{RTFLOWNAT} %{RTFLOWRULES} %{RTFLOWPOLICY} %{NONNEGINT:session-id:int} %{RTFLOWBYTES} %{NONNEGINT:elapsed-time:int}.*
RT_FLOW2=%{RT_FLOW_EVENT:event}: session created %{RTFLOWENDS} %{RTFLOWNAT} %{RTFLOWRULES} %{RTFLOWPOLICY} %{NONNEGINT:session-id:int}.*
RT_FLOW3=%{RT_FLOW_EVENT:event}: session denied %{RTFLOWENDS} %{NONNEGINT:protocol-id:int}\([0-9]+\) %{RTFLOWPOLICY}.*

# The traffic log of Juniper's ScreenOS ("ScreenOS Message Log Reference Guide", Traffic, notification 00257).
NETSCREENDEVICE=NetScreen device_id=%{NOTSPACE:device_id}.*?: start_time=%{QUOTEDSTRING:start_time} duration=%{NONNEGINT:duration:int}
NETSCREENPOLICY=policy_id=%{INT:policy_id:int} service=%{DATA:service} proto=%{NONNEGINT:proto:int} src zone=%{NOTSPACE:src_zone} dst zone=%{NOTSPACE:dst_zone} action=%{WORD:action}
NETSCREENFLOW=sent=%{NONNEGINT:sent:int} rcvd=%{NONNEGINT:rcvd:int} src=%{IPORHOST:src_ip} dst=%{IPORHOST:dst_ip} src_port=%{PORT:src_port:int} dst_port=%{PORT:dst_port:int}
NETSCREENSRCXLATED=src-xlated ip=%{IPORHOST:src_xlated_ip} port=%{PORT:src_xlated_port:int}
NETSCREENDSTXLATED=dst-xlated ip=%{IPORHOST:dst_xlated_ip} port=%{PORT:dst_xlated_port:int}
NETSCREENSESSIONLOG=%{SYSLOGTIMESTAMP:date} %{IPORHOST:device} %{IPORHOST}: %{NETSCREENDEVICE} %{NETSCREENPOLICY} %{NETSCREENFLOW}(?: %{NETSCREENSRCXLATED})?(?: %{NETSCREENDSTXLATED})?(?: session_id=%{NONNEGINT:session_id:int})?(?: reason=%{GREEDYDATA:reason})?

# The packets that Shorewall logs (man shorewall.conf, LOGFORMAT).
SHOREWALLNAME=[^\s:]+
SHOREWALLMACS=MAC=%{COMMONMAC:nf_dst_mac}:%{COMMONMAC:nf_src_mac}(?::%{NOTSPACE})?
SHOREWALLDEVICES=IN=%{IPTABLESDEVICE:nf_in_interface}? +OUT=%{IPTABLESDEVICE:nf_out_interface}?(?: .*?%{SHOREWALLMACS})?
SHOREWALLIP=SRC=%{IPTABLESADDRESS:nf_src_ip} DST=%{IPTABLESADDRESS:nf_dst_ip} LEN=%{NONNEGINT:nf_len:int} TOS=%{IPTABLESHEX:nf_tos} PREC=%{IPTABLESHEX:nf_prec} TTL=%{NONNEGINT:nf_ttl:int} ID=%{NONNEGINT:nf_id:int}
SHOREWALLPORTS= SPT=%{NONNEGINT:nf_src_port:int} DPT=%{NONNEGINT:nf_dst_port:int}
SHOREWALL=%{SYSLOGTIMESTAMP:timestamp} %{SYSLOGHOST:nf_host} kernel:.*Shorewall:%{SHOREWALLNAME:nf_action1}?:%{SHOREWALLNAME:nf_action2}?:.*?%{SHOREWALLDEVICES} .*?%{SHOREWALLIP}.*? PROTO=%{NOTSPACE:nf_protocol}%{SHOREWALLPORTS}?.*

# The alerts of Snort in its format alert_fast (Snort Users Manual, "alert_fast"), and the fast.log of Suricata (Suricata User Guide,
# "Line based alerts log"). Names of both ends are those of Suricata's EVE. A classification that is `(null)` has no key.
SNORTTIME=%{MONTHNUM2}/%{MONTHDAY2}(?:/(?:%{YEAR4}|[0-9]{2}))?-%{TIME}
SNORTACTION=w?Drop
SNORTCLASS=[^\[\]]+
SNORTPROTO=[^{}]+
SNORTRULE=\[\*\*\] \[%{NONNEGINT:gid:int}:%{NONNEGINT:sid:int}:%{NONNEGINT:rev:int}\] "?%{DATA:msg}"? \[\*\*\]
SNORTRATING=(?:\[Classification: (?:\(null\)|%{SNORTCLASS:classification})\] )?\[Priority: %{NONNEGINT:priority:int}\]
SNORTENDS=%{IP:src_ip}(?::%{PORT:src_port:int})? -> %{IP:dest_ip}(?::%{PORT:dest_port:int})?
SNORTALERT=%{SNORTTIME:timestamp} +(?:\[%{SNORTACTION:action}\] )?%{SNORTRULE} %{SNORTRATING} \{%{SNORTPROTO:proto}\} %{SNORTENDS}

# The log of fail2ban (its source fail2ban/server/server.py for the head, filter.py and actions.py for what is done with an address).
# `details` is the time of what was found, or the rest of the line.
FAIL2BANLOGGER=fail2ban\.[0-9A-Za-z_.]+
FAIL2BANJAIL=[^\s\[\]]+
FAIL2BANACTION=(?:Found|Ban|Unban|Restore Ban|Increase Ban|Ignore)
FAIL2BANADDRESS=%{FAIL2BANACTION:action} %{IP:ip}(?:(?: -)? %{GREEDYDATA:details})?
FAIL2BAN=%{TIMESTAMP_ISO8601:timestamp} %{FAIL2BANLOGGER:logger} *\[%{NONNEGINT:pid:int}\]: %{LOGLEVEL:level} +(?:\[%{FAIL2BANJAIL:jail}\] )?(?:%{FAIL2BANADDRESS}|%{GREEDYDATA:message})

# The logs of FortiGate (FortiOS Log Message Reference). `pairs` is what follows the fields that each line has. `eventtime` stays a text,
# since it has more digits than many programs keep in a number.
FORTIGATEVALUE=[^\s"]+
FORTIGATEHEAD=(?:<%{SYSLOGPRIORITY:syslog_pri:int}>)?date=%{DATE_ISO8601:date} time=%{TIME:time}(?: devname="?%{FORTIGATEVALUE:devname}"? devid="?%{FORTIGATEVALUE:devid}"?)?
FORTIGATETIME= eventtime=%{NONNEGINT:eventtime}(?: tz="?%{FORTIGATEVALUE:tz}"?)?
FORTIGATEKIND=logid="?%{FORTIGATEVALUE:logid}"? type="?%{FORTIGATEVALUE:type}"? subtype="?%{FORTIGATEVALUE:subtype}"?(?: eventtype="?%{FORTIGATEVALUE:eventtype}"?)? level="?%{LOGLEVEL:level}"?
FORTIGATE=%{FORTIGATEHEAD}%{FORTIGATETIME}? %{FORTIGATEKIND} (?:vd="?%{FORTIGATEVALUE:vd}"? )?%{LOGFMTPAIRS:pairs}

# The traffic log of Palo Alto's PAN-OS (PAN-OS Administrator's Guide, "Traffic Log Fields") up to the category, in a line of syslog
# or alone. A field that is empty has no key.
PANOSVALUE=(?:"(?:[^"]|"")*"|[^,"]+)
PANOSSUBTYPE=(?:start|end|drop|deny)
PANOSADDRESS=[0-9A-Fa-f.:]+
PANOSHEAD=1,%{TIMESTAMP_SLASHES:receive_time},%{PANOSVALUE:serial}?,TRAFFIC,%{PANOSSUBTYPE:subtype},[0-9]*,%{TIMESTAMP_SLASHES:time_generated}
PANOSADDRESSES=%{PANOSADDRESS:src},%{PANOSADDRESS:dst},%{PANOSADDRESS:natsrc}?,%{PANOSADDRESS:natdst}?
PANOSPOLICY=%{PANOSVALUE:rule}?,%{PANOSVALUE:srcuser}?,%{PANOSVALUE:dstuser}?,%{PANOSVALUE:app}?,%{PANOSVALUE:vsys}?,%{PANOSVALUE:from}?,%{PANOSVALUE:to}?,%{PANOSVALUE:inbound_if}?,%{PANOSVALUE:outbound_if}?,%{PANOSVALUE:logset}?,%{PANOSVALUE}?
PANOSSESSION=%{NONNEGINT:sessionid:int},%{NONNEGINT:repeatcnt:int},%{PORT:sport:int},%{PORT:dport:int},%{PORT:natsport:int},%{PORT:natdport:int},%{PANOSVALUE:flags}?,%{PANOSVALUE:proto},%{PANOSVALUE:action}
PANOSCOUNTS=%{NONNEGINT:bytes:int},%{NONNEGINT:bytes_sent:int},%{NONNEGINT:bytes_received:int},%{NONNEGINT:packets:int},%{TIMESTAMP_SLASHES:start},%{NONNEGINT:elapsed:int},%{PANOSVALUE:category}?
PANOSTRAFFIC=(?:%{SYSLOGBASE2} )?%{PANOSHEAD},%{PANOSADDRESSES},%{PANOSPOLICY},%{PANOSSESSION},%{PANOSCOUNTS}(?:,.*)?

# The log of Windows' firewall, pfirewall.log (Microsoft's documentation, "Interpreting the Windows Firewall log"), under the names of
# its line `#Fields:`. Newer versions write a process at the end. A field that is `-` has no key.
WINFIREWALLACTION=(?:ALLOW|DROP|OPEN|CLOSE|OPEN-INBOUND|INFO-EVENTS-LOST)
WINFIREWALLPROTOCOL=[0-9A-Za-z-]+
WINFIREWALLADDRESS=[0-9A-Fa-f.:]+
WINFIREWALLFLAGS=[A-Z]+
WINFIREWALLPATH=(?:SEND|RECEIVE|FORWARD|UNKNOWN)
WINFIREWALLENDS=(?:-|%{WINFIREWALLADDRESS:src-ip}) (?:-|%{WINFIREWALLADDRESS:dst-ip}) (?:-|%{PORT:src-port:int}) (?:-|%{PORT:dst-port:int}) (?:-|%{NONNEGINT:size:int})
WINFIREWALLTCP=(?:-|%{WINFIREWALLFLAGS:tcpflags}) (?:-|%{NONNEGINT:tcpsyn:int}) (?:-|%{NONNEGINT:tcpack:int}) (?:-|%{NONNEGINT:tcpwin:int})
WINFIREWALLREST=(?:-|%{NONNEGINT:icmptype:int}) (?:-|%{NONNEGINT:icmpcode:int}) (?:-|%{NOTSPACE:info}) (?:-|%{WINFIREWALLPATH:path})(?: (?:-|%{NONNEGINT:pid:int}))?
WINFIREWALL=%{DATE_ISO8601:date} %{TIME:time} %{WINFIREWALLACTION:action} %{WINFIREWALLPROTOCOL:protocol} %{WINFIREWALLENDS} %{WINFIREWALLTCP} %{WINFIREWALLREST}
"##;
