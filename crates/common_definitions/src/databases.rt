//! The logs of databases.

pub const DATABASES: &str = r##"
# PostgreSQL's log (its documentation, "Error Reporting and Logging"): with the prefixes '%m [%p] ', which is the default,
# '%m [%p] %q%u@%d ', which Debian sets, and '%t [%p]: [%l-1] user=%u,db=%d,app=%a,client=%h ', which pgBadger recommends.
POSTGRESQLLEVEL=(?:DEBUG[1-5]|INFO|NOTICE|WARNING|ERROR|LOG|FATAL|PANIC|DETAIL|HINT|QUERY|CONTEXT|STATEMENT|LOCATION|BACKTRACE)
POSTGRESQLTIME=%{DATE_ISO8601} %{TIME} %{TZ}
POSTGRESQLNAME=[^\s@,]*
POSTGRESQLCLIENT=(?:user=)?%{POSTGRESQLNAME:user}(?:@|,db=)%{POSTGRESQLNAME:database}(?:,app=%{POSTGRESQLAPPLICATION:application})?(?:,client=%{POSTGRESQLNAME:client})?
POSTGRESQLAPPLICATION=[^,]*
POSTGRESQL=%{POSTGRESQLTIME:timestamp} \[%{NONNEGINT:pid:int}\]:?(?: \[%{NONNEGINT:line:int}-[0-9]+\])?(?: %{POSTGRESQLCLIENT})? %{POSTGRESQLLEVEL:level}: +%{GREEDYDATA:message}

# The error log of MySQL 8 (its Reference Manual, "Error Log Output Format").
MYSQLLEVEL=(?:System|ERROR|Error|Warning|Note)
MYSQLCODE=MY-[0-9]+
MYSQLERROR=%{TIMESTAMP_ISO8601:timestamp} %{NONNEGINT:thread:int} \[%{MYSQLLEVEL:level}\] \[%{MYSQLCODE:code}\] \[%{NOTSPACE:subsystem}\] %{GREEDYDATA:message}

# The log of Redis, with the role of the process since version 3 (X sentinel, C child, S replica, M master) and the level
# (. debug, - verbose, * notice, # warning), and the output of its command MONITOR (Redis's documentation).
REDISTIMESTAMP=%{MONTHDAY} %{MONTH}(?: %{YEAR4})? %{TIME}
REDISROLE=[XCSM]
REDISLEVEL=[.*#-]
REDISLOG=\[?%{NONNEGINT:pid:int}(?:\]|:%{REDISROLE:role}) %{REDISTIMESTAMP:timestamp} %{REDISLEVEL:level} %{GREEDYDATA:message}
REDISMONLOG=%{NUMBER:timestamp:float} \[%{NONNEGINT:database:int} (?:lua|unix:%{REDISSOCKET:socket}|\[?%{IP:client}\]?:%{PORT:port:int})\] "%{INQUOTES:command}"(?: %{GREEDYDATA:params})?
REDISSOCKET=[^\s\]]+

# The log of MongoDB 2 (its manual of that version, "Process Logging" and "Database Profiler"), and its slow queries.
MONGO_WORDDASH=\b[\w-]+\b
MONGO_LOG=(?:%{DAY} )?%{SYSLOGTIMESTAMP:timestamp} \[%{MONGO_WORDDASH:component}\] %{GREEDYDATA:message}
MONGO_QUERY=\{.*\}
MONGO_SLOWQUERY=%{WORD} %{MONGO_WORDDASH:database}\.%{MONGO_WORDDASH:collection} query: %{MONGO_QUERY:query} ntoreturn:%{NONNEGINT:ntoreturn:int} ntoskip:%{NONNEGINT:ntoskip:int} nscanned:%{NONNEGINT:nscanned:int} .*?nreturned:%{NONNEGINT:nreturned:int} .*?%{NONNEGINT:duration:int}ms

# The log of MongoDB 3.0 to 4.2 (its manual, "Log Messages"). Later versions write JSON.
MONGO3_SEVERITY=(?:[FEWI]|D[1-5]?)
MONGO3_COMPONENT=(?:-|[A-Z_]+)
MONGO3_CONTEXT=[^\]]*
MONGO3_LOG=%{TIMESTAMP_ISO8601:timestamp} %{MONGO3_SEVERITY:severity} +%{MONGO3_COMPONENT:component} +(?:\[%{MONGO3_CONTEXT:context}\] +)?%{GREEDYDATA:message}

# The error log of MariaDB (its documentation, "Error Log"), with the time, the thread and the level. An hour of one digit has a
# blank before it.
MARIADBTIME=%{DATE_ISO8601} +%{TIME}
MARIADBLEVEL=(?:Note|Warning|ERROR)
MARIADBERROR=%{MARIADBTIME:timestamp} %{NONNEGINT:thread:int} \[%{MARIADBLEVEL:level}\] %{GREEDYDATA:message}

# The log of PgBouncer (its source, log_socket_prefix, and lib/usual/logging.c of libusual). Messages on a client (C) or a server (S)
# have the database, the user and the address. A client of a Unix socket has its process in the place of the address.
PGBOUNCERLEVEL=(?:NOISE|DEBUG|LOG|WARNING|ERROR|FATAL)
PGBOUNCERSOCKET=[CS]-0x[0-9a-f]+
PGBOUNCERNAME=[^\s/@]+
PGBOUNCERHOST=(?:%{IPV4}|\[%{IPV6}\]|unix\([0-9]+\))
PGBOUNCERPEER=%{PGBOUNCERSOCKET:socket}: %{PGBOUNCERNAME:database}/%{PGBOUNCERNAME:user}@%{PGBOUNCERHOST:host}:%{PORT:port:int}
PGBOUNCERLOG=%{POSTGRESQLTIME:timestamp} \[%{NONNEGINT:pid:int}\] %{PGBOUNCERLEVEL:level} (?:%{PGBOUNCERPEER} )?%{GREEDYDATA:message}

# The error log of Microsoft SQL Server, ERRORLOG (its documentation, "View the SQL Server error log"). `process` is what its viewer
# shows as the source: a session (spid), or a part of the server.
MSSQLTIME=%{DATE_ISO8601} %{HOUR2}:%{MINUTE}:[0-5][0-9]\.[0-9]{2}
MSSQLPROCESS=(?:spid[0-9]+s?|Server|Logon|Backup)
MSSQLLOG=%{MSSQLTIME:timestamp} %{MSSQLPROCESS:process}  +%{GREEDYDATA:message}
"##;
