//! The logs of programs in Go, PHP, Python, Ruby, .NET and Erlang, of Kubernetes, and in the form of logfmt.

pub const APPLICATIONS: &str = r##"
# klog, which Kubernetes uses, and glog: Lmmdd hh:mm:ss.uuuuuu threadid file:line] message (the comment of klog.go). The
# message may end with pairs KEY=VALUE.
KLOGLEVEL=[IWEF]
KLOGTIME=%{YEAR4}?%{MONTHNUM2}%{MONTHDAY2} %{TIME}
SOURCEFILE=[^\s:()]+
KLOG=%{KLOGLEVEL:level}%{KLOGTIME:timestamp} +%{NONNEGINT:thread:int} %{SOURCEFILE:file}:%{NONNEGINT:line:int}\] %{GREEDYDATA:message}

# The logs of containers that the kubelet reads (the Kubernetes design "CRI: Log management"). `part` is F for a whole line
# and P for a part of one.
CRISTREAM=(?:stdout|stderr)
CRIPART=[FP]
CRILOG=%{TIMESTAMP_ISO8601:timestamp} %{CRISTREAM:stream} %{CRIPART:part}(?: %{GREEDYDATA:message})?

# Go's package log, with its flags for the standard format, microseconds and the file (pkg.go.dev/log).
GOLOG=%{TIMESTAMP_SLASHES:timestamp} (?:%{SOURCEFILE:file}:%{NONNEGINT:line:int}: )?%{GREEDYDATA:message}

# logfmt: KEY=VALUE, with quotes around a value that has blanks, as Go's log/slog (TextHandler), logrus and Heroku write it.
# LOGFMT is a line that begins with the time and the level, and `pairs` is what follows them.
LOGFMTKEY=[^\s="]+
LOGFMTVALUE=(?:%{DOUBLEQUOTED}|[^\s"]*)
LOGFMTPAIR=%{LOGFMTKEY}=%{LOGFMTVALUE}
LOGFMTPAIRS=%{LOGFMTPAIR}(?: +%{LOGFMTPAIR})*
LOGFMTHEAD=\b(?:time|timestamp|ts|t)="?%{TIMESTAMP_ISO8601:timestamp}"? +(?:level|lvl|severity)="?%{LOGLEVEL:level}"?
LOGFMT=%{LOGFMTHEAD} +%{LOGFMTPAIRS:pairs}

# Python's logging (its HOWTO): the default format, the format of the HOWTO's formatter, and the head of a traceback's part.
PYTHONLEVEL=(?:DEBUG|INFO|WARNING|ERROR|CRITICAL)
PYTHONLOGGER=[0-9A-Za-z_.-]+
PYTHONBASICLOG=%{PYTHONLEVEL:level}:%{PYTHONLOGGER:logger}:%{GREEDYDATA:message}
PYTHONLOG=%{TIMESTAMP_ISO8601:timestamp} - %{PYTHONLOGGER:logger} - %{LOGLEVEL:level} - %{GREEDYDATA:message}
PYTHONTRACEBACKPART=\s*File "%{INQUOTES:file}", line %{NONNEGINT:line:int}(?:, in %{GREEDYDATA:function})?

# Gunicorn's error log (its settings, "errorlog"): the time, the process and the level in brackets.
GUNICORNLOG=\[%{TIMESTAMP_ISO8601:timestamp}\] \[%{NONNEGINT:pid:int}\] \[%{LOGLEVEL:level}\] %{GREEDYDATA:message}

# Ruby's Logger (Logger::Formatter).
RUBY_LOGLEVEL=(?:DEBUG|INFO|WARN|ERROR|FATAL|ANY|UNKNOWN)
RUBY_LOGGER=[DIWEFAU], \[%{TIMESTAMP_ISO8601:timestamp} #%{NONNEGINT:pid:int}\] +%{RUBY_LOGLEVEL:loglevel} -- +%{DATA:progname}: %{GREEDYDATA:message}

# Rails 3 ("Action Controller Overview", and its class ActionController::LogSubscriber): the parts of an event of several lines, and
# the event, which begins at each line that begins with `Started`.
RUUID=[0-9a-f]{32}
RCONTROLLERNAME=[0-9A-Za-z_:]+
RCONTROLLER=%{RCONTROLLERNAME:controller}#%{WORD:action}
RPARAMETERS=\{%{DATA:params}\}
RPROCESSING=\s*Processing by %{RCONTROLLER} as %{NOTSPACE:format}(?:\s+Parameters: %{RPARAMETERS}\s)?
RAILS3HEAD=Started %{WORD:verb} "%{URIPATHPARAM:request}" for %{IPORHOST:clientip} at %{TIMESTAMP_ISO8601:timestamp}
RAILS3PROFILE=\((?:Views: %{NUMBER:viewms:float}ms)?(?: \| )?(?:ActiveRecord: %{NUMBER:activerecordms:float}ms)?
RAILS3FOOT=Completed %{NONNEGINT:response:int}.*? in %{NUMBER:totalms:float}ms(?: %{RAILS3PROFILE}.*)?
RAILS3LINES=(?:.*\n)*
RAILS3=%{RAILS3HEAD}%{RPROCESSING}?%{RAILS3LINES:context}%{RAILS3FOOT}?

# PHP's log of errors (its manual, error_log and display_errors; its source main/main.c), with the file and the line if the message
# has them at its end, and the log of PHP-FPM (its manual, "Configuration", error_log; its source zlog.c).
PHPDATE=%{MONTHDAY2}-%{MONTH}-%{YEAR4} %{TIME}
PHPZONE=[0-9A-Za-z_+:/-]+
PHPTIME=%{PHPDATE} %{PHPZONE}
PHPLEVEL=(?:Fatal error|Recoverable fatal error|Parse error|Warning|Notice|Deprecated|Strict Standards|Unknown error)
PHPERRORLOG=\[%{PHPTIME:timestamp}\] PHP %{PHPLEVEL:level}:  %{DATA:message}(?: in %{PATH:file} on line %{NONNEGINT:line:int})?(?m:$)
PHPFPMLEVEL=(?:DEBUG|NOTICE|WARNING|ERROR|ALERT)
PHPFPMPOOL=[^\s\[\]]+
PHPFPMLOG=\[%{PHPDATE:timestamp}\] %{PHPFPMLEVEL:level}: (?:\[pool %{PHPFPMPOOL:pool}\] )?%{GREEDYDATA:message}

# Monolog's class LineFormatter, which Symfony and Laravel use: '[%datetime%] %channel%.%level_name%: %message% %context% %extra%'.
# The context and the extra data are JSON. They have no key if they are empty, and Laravel leaves them out then.
MONOLOGCHANNEL=[0-9A-Za-z_.-]+
MONOLOGLEVEL=(?:DEBUG|INFO|NOTICE|WARNING|ERROR|CRITICAL|ALERT|EMERGENCY)
MONOLOGJSON=(?:\{".+?\}|\[[^\[\]]+\])
MONOLOGLOG=\[%{TIMESTAMP_ISO8601:timestamp}\] %{MONOLOGCHANNEL:channel}\.%{MONOLOGLEVEL:level}: %{DATA:message}(?: (?:\[\]|%{MONOLOGJSON:context}))?(?: (?:\[\]|%{MONOLOGJSON:extra}))? *(?m:$)

# Celery's worker (its documentation, worker_log_format and worker_task_log_format). Messages of a task itself have its name and
# identifier.
CELERYNAME=[^\s\[\]]+
CELERYTASK=%{CELERYNAME:task_name}\[%{UUID:task_id}\]
CELERYLOG=\[%{TIMESTAMP_ISO8601:timestamp}: %{PYTHONLEVEL:level}/%{CELERYNAME:process}\] (?:%{CELERYTASK}: )?%{GREEDYDATA:message}

# Airflow (its "Configuration Reference", log_format).
AIRFLOWLOG=\[%{TIMESTAMP_ISO8601:timestamp}\] \{%{SOURCEFILE:file}:%{NONNEGINT:line:int}\} %{PYTHONLEVEL:level} - %{GREEDYDATA:message}

# Home Assistant (FORMAT in its homeassistant/bootstrap.py).
HOMEASSISTANTTHREAD=[^\[\]]+
HOMEASSISTANTLOG=%{TIMESTAMP_ISO8601:timestamp} %{PYTHONLEVEL:level} \(%{HOMEASSISTANTTHREAD:thread}\) \[%{PYTHONLOGGER:logger}\] %{GREEDYDATA:message}

# hclog, which Consul, Nomad, Terraform and Vault use (pkg.go.dev/github.com/hashicorp/go-hclog). Levels of four letters have a
# further blank after them, and pairs KEY=VALUE may follow the message.
HCLOGLEVEL=(?:TRACE|DEBUG|INFO|WARN|ERROR)
HCLOGMODULE=[^\s:]+
HCLOG=%{TIMESTAMP_RFC3339:timestamp} \[%{HCLOGLEVEL:level}\]  ?(?:%{HCLOGMODULE:module}: )?%{GREEDYDATA:message}

# RabbitMQ (its documentation, "Logging"): '$time [$level] $pid $msg', where the pid is that of a process of Erlang.
ERLANGPID=<[0-9]+\.[0-9]+\.[0-9]+>
RABBITMQLOG=%{TIMESTAMP_ISO8601:timestamp} \[%{LOGLEVEL:level}\] %{ERLANGPID:pid} %{GREEDYDATA:message}

# Loguru (its documentation, LOGURU_FORMAT): '{time} | {level: <8} | {name}:{function}:{line} - {message}'.
LOGURULEVEL=(?:TRACE|DEBUG|INFO|SUCCESS|WARNING|ERROR|CRITICAL)
LOGURUFUNCTION=(?:<[a-z]+>|[0-9A-Za-z_]+)
LOGURULOG=%{TIMESTAMP_ISO8601:timestamp} \| %{LOGURULEVEL:level} +\| %{PYTHONLOGGER:name}:%{LOGURUFUNCTION:function}:%{NONNEGINT:line:int} - %{GREEDYDATA:message}

# Serilog's files (the documentation of Serilog.Sinks.File, outputTemplate): '{Timestamp} [{Level:u3}] {Message:lj}'.
SERILOGLEVEL=(?:VRB|DBG|INF|WRN|ERR|FTL)
SERILOG=%{TIMESTAMP_ISO8601:timestamp} \[%{SERILOGLEVEL:level}\] %{GREEDYDATA:message}
"##;
