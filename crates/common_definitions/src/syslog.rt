//! Lines of syslog and of the journal, the messages of PAM, cron, sudo and the kernel's firewall, and the logs of auditd and dpkg.

pub const SYSLOG: &str = r##"
# Names of programs. PROG has no blanks. PROGRAM also has further words, if these begin with a capital, a digit or a bracket,
# as in `Google Chrome Helper (GPU)`.
PROG=[^\s\[\]:]+
PROGRAM=%{PROG}(?: [A-Z0-9(][^\s\[\]:]*){0,4}

# The lines of syslog (RFC 3164, 4.1 and 5.3), as rsyslog and syslog-ng write them. SYSLOGLINE also takes a line with its
# priority, and one without a program, such as `last message repeated 3 times`. SYSLOGHOST takes any name or address.
SYSLOGHOST=(?:[0-9A-Za-z_]|::)(?:[0-9A-Za-z_.:%-]*[0-9A-Za-z_])?
SYSLOGPRIORITY=(?:19[01]|1[0-8][0-9]|[1-9]?[0-9])
SYSLOGFACILITY=<%{NONNEGINT:facility:int}\.%{NONNEGINT:priority:int}>
SYSLOGPROG=%{PROGRAM:program}(?:\[%{NONNEGINT:pid:int}\])?
SYSLOGBASE=%{SYSLOGTIME:timestamp} (?:%{SYSLOGFACILITY} )?%{SYSLOGHOST:logsource} %{SYSLOGPROG}:
SYSLOGBASE2=(?:<%{SYSLOGPRIORITY:syslog_pri:int}>)?%{SYSLOGTIME:timestamp} (?:%{SYSLOGFACILITY} )?%{SYSLOGHOST:logsource}(?: %{SYSLOGPROG}:)?
SYSLOGLINE=%{SYSLOGBASE2}(?: %{GREEDYDATA:message})?

# The lines of RFC 5424 (6). A part that is `-`, for none, has no key. Some programs leave out the structured data, and write two
# blanks where it would be.
SYSLOG5424PRI=<%{SYSLOGPRIORITY:syslog5424_pri:int}>
SYSLOG5424PRINTASCII=[!-~]+
SYSLOG5424NAME=[!#-<>-\\^-~]{1,32}
SYSLOG5424PARAM=%{SYSLOG5424NAME}="(?:[^"\\\]]|\\.)*"
SYSLOG5424SD=(?:\[%{SYSLOG5424NAME}(?: %{SYSLOG5424PARAM})*\])+
SYSLOG5424SOURCE=(?:-|%{SYSLOG5424PRINTASCII:syslog5424_host}) +(?:-|%{SYSLOG5424PRINTASCII:syslog5424_app}) +(?:-|%{SYSLOG5424PRINTASCII:syslog5424_proc}) +(?:-|%{SYSLOG5424PRINTASCII:syslog5424_msgid})
SYSLOG5424BASE=%{SYSLOG5424PRI}%{NONNEGINT:syslog5424_ver:int} +(?:-|%{TIMESTAMP_ISO8601:syslog5424_ts}) +%{SYSLOG5424SOURCE}(?: +(?:-|%{SYSLOG5424SD:syslog5424_sd})| )
SYSLOG5424LINE=%{SYSLOG5424BASE}(?: +%{GREEDYDATA:syslog5424_msg})?

# The output of journalctl in its formats short, short-precise, short-iso, short-iso-precise, short-full and short-unix (man
# journalctl, --output).
JOURNALTIME=(?:%{SYSLOGTIME}|%{DAY} %{DATE_ISO8601} %{TIME} %{TZ}|%{TIMESTAMP_UNIX})
JOURNALBASE=%{JOURNALTIME:timestamp} %{SYSLOGHOST:logsource} %{SYSLOGPROG}:
JOURNALLINE=%{JOURNALBASE} %{GREEDYDATA:message}

# The messages of the kernel, as dmesg writes them (man dmesg), with the seconds since the start of the system. They have no host
# and no program. The format short-monotonic of journalctl has both after the same time.
DMESGTIME=\[ *[0-9]+\.[0-9]{6}\]
DMESGLINE=%{DMESGTIME:timestamp} %{GREEDYDATA:message}
JOURNALMONOTONICLINE=%{DMESGTIME:timestamp} %{SYSLOGHOST:logsource} %{SYSLOGPROG}: %{GREEDYDATA:message}

# The messages of Linux-PAM (man pam_unix): sessions, failures, and other messages of a module.
PAMNAME=[0-9A-Za-z_.-]+
PAMHEAD=%{PAMNAME:pam_module}\(%{PAMNAME:pam_service}:%{PAMNAME:pam_type}\):
PAMSESSION=session %{PAMNAME:pam_session_state} for user %{NOTSPACE:username}?(?: by %{GREEDYDATA:pam_by})?
PAMFAILURE=authentication failure; logname=%{NOTSPACE:logname}? uid=%{NONNEGINT:uid:int} euid=%{NONNEGINT:euid:int} tty=%{NOTSPACE:tty}? ruser=%{NOTSPACE:ruser}? rhost=%{NOTSPACE:rhost}?(?: +user=%{GREEDYDATA:user})?
PAM=%{PAMHEAD} (?:%{PAMSESSION}|%{PAMFAILURE}|%{GREEDYDATA:pam_message})
PAMLINE=%{SYSLOGBASE} %{PAM}
SYSLOGPAMSESSION=%{SYSLOGBASE} %{PAMHEAD} %{PAMSESSION}

# The messages of cron (man cron; Debian's and Vixie's): a user, what is done, and with what.
CRON_ACTION=[A-Za-z]+(?: [A-Za-z]+)*
CRONUSER=[^\s()]+
CRON=\(%{CRONUSER:user}\) %{CRON_ACTION:action} \(%{GREEDYDATA:message}\)
CRONLOG=%{SYSLOGBASE} %{CRON}

# The packets that the Linux kernel logs for the target LOG of iptables and nftables (man iptables-extensions).
IPTABLESDEVICE=[^\s=]+
IPTABLESADDRESS=[0-9A-Fa-f.:]+
IPTABLESHEX=0x[0-9A-Fa-f]+
IPTABLESMAC=[0-9A-Fa-f:]+
IPTABLESDEVICES=IN=%{IPTABLESDEVICE:in}? +OUT=%{IPTABLESDEVICE:out}?(?: +PHYSIN=%{IPTABLESDEVICE:physin})?(?: +PHYSOUT=%{IPTABLESDEVICE:physout})?(?: +MAC=%{IPTABLESMAC:mac}?)?
IPTABLESIPV4=TOS=%{IPTABLESHEX:tos} PREC=%{IPTABLESHEX:prec} TTL=%{NONNEGINT:ttl:int} ID=%{NONNEGINT:id:int}(?: CE| DF| MF| FRAG:[0-9]+)*
IPTABLESIPV6=TC=%{NONNEGINT:tc:int} HOPLIMIT=%{NONNEGINT:hoplimit:int} FLOWLBL=%{NONNEGINT:flowlbl:int}
IPTABLESIP=SRC=%{IPTABLESADDRESS:src} +DST=%{IPTABLESADDRESS:dst} +LEN=%{NONNEGINT:len:int}(?: (?:%{IPTABLESIPV4}|%{IPTABLESIPV6}))? PROTO=%{NOTSPACE:proto}
IPTABLESPORTS=SPT=%{NONNEGINT:spt:int} DPT=%{NONNEGINT:dpt:int}
IPTABLESFLAGS=[A-Z]{3}(?: [A-Z]{3})*
IPTABLESTCP=(?:SEQ=[0-9]+ ACK=[0-9]+ )?WINDOW=%{NONNEGINT:window:int} RES=%{IPTABLESHEX:res}(?: %{IPTABLESFLAGS:flags})? URGP=%{NONNEGINT:urgp:int}
IPTABLESICMP=TYPE=%{NONNEGINT:type:int} CODE=%{NONNEGINT:code:int}
IPTABLES=%{IPTABLESDEVICES} +%{IPTABLESIP}(?: %{IPTABLESPORTS}(?: %{IPTABLESTCP})?| %{IPTABLESICMP})?
IPTABLESLINE=%{SYSLOGBASE} (?:\[ *[0-9]+\.[0-9]+\] )?%{DATA:prefix}%{IPTABLES}.*

# The commands that sudo logs, under the names of the manual (man sudoers, "LOG FORMAT"). `reason` is why a command was refused.
SUDOREASON=[^;=]+
SUDOPLACE=(?:HOST=%{NOTSPACE:host} ; )?(?:TTY=%{NOTSPACE:ttyname} ; )?(?:CHROOT=%{DATA:chroot} ; )?PWD=%{DATA:cwd} ;
SUDOTARGET=USER=%{NOTSPACE:runasuser} ; (?:GROUP=%{NOTSPACE:runasgroup} ; )?(?:TSID=%{NOTSPACE:logid} ; )?(?:ENV=%{DATA:env_vars}(?: ;)? )?COMMAND=%{GREEDYDATA:command}
SUDO=%{NOTSPACE:username} : (?:%{SUDOREASON:reason} ; )?%{SUDOPLACE} %{SUDOTARGET}
SUDOLINE=%{SYSLOGBASE} +%{SUDO}

# The records of the Linux audit daemon (man auditd.conf: name_format, log_format; man ausearch for the serial number).
AUDITTYPE=(?:[A-Z0-9_]+|UNKNOWN\[[0-9]+\])
AUDITLOG=(?:node=%{NOTSPACE:node} )?type=%{AUDITTYPE:type} msg=audit\(%{NUMBER:timestamp:float}:%{NONNEGINT:serial:int}\):(?: %{GREEDYDATA:pairs})?

# The log of dpkg (man dpkg, --log). A version that is `<none>` has no key.
DPKGVALUE=[^\s<>]+
DPKGTYPE=(?:archives|packages)
DPKGSTATE=(?:not-installed|config-files|half-installed|unpacked|half-configured|triggers-awaited|triggers-pending|installed)
DPKGACTION=(?:install|upgrade|configure|trigproc|disappear|remove|purge)
DPKGDECISION=(?:install|keep)
DPKGSTARTUP=startup %{DPKGTYPE:type} %{DPKGVALUE:command}
DPKGCONFFILE=conffile %{NOTSPACE:filename} %{DPKGDECISION:decision}
DPKGPACKAGE=(?:status %{DPKGSTATE:state}|%{DPKGACTION:action}) %{DPKGVALUE:pkg} (?:<none>|%{DPKGVALUE:installed_version})(?: (?:<none>|%{DPKGVALUE:available_version}))?
DPKGLOG=%{TIMESTAMP_ISO8601:timestamp} (?:%{DPKGSTARTUP}|%{DPKGCONFFILE}|%{DPKGPACKAGE})
"##;
