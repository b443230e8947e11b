//! Times and dates.

pub const TIMES: &str = r##"
# The parts of times and dates. Those whose names end in 2 always have two digits. A second may be 60 (a leap second).
YEAR4=[0-9]{4}
MONTHNUM=(?:0[1-9]|1[0-2]|\b[1-9])
MONTHNUM2=(?:0[1-9]|1[0-2])
MONTHDAY=(?:0[1-9]|[12][0-9]|3[01]|\b[1-9])
MONTHDAY2=(?:0[1-9]|[12][0-9]|3[01])
HOUR=(?:[01][0-9]|2[0-3]|\b[0-9])
HOUR2=(?:[01][0-9]|2[0-3])
MINUTE=[0-5][0-9]
SECOND=(?:[0-5][0-9]|60)(?:[.,][0-9]+)?
ISO8601_SECOND=%{SECOND}
TIME=%{HOUR}:%{MINUTE}:%{SECOND}

# Time zones: abbreviations of the tz database, and offsets, which PostgreSQL writes for zones that have no abbreviation.
TZ=(?:\b(?:UTC|GMT|WES?T|BST|IST|CES?T|EES?T|MSK|[ACEHMNP][DS]T|AK[DS]T|JST|KST|HKT|SGT|A[CEW][DS]T|NZ[DS]T)\b|[+-]%{HOUR2}(?::?%{MINUTE})?\b)
ISO8601_TIMEZONE=(?:Z|[+-]%{HOUR2}(?::?%{MINUTE})?)
UTCOFFSET=%{ISO8601_TIMEZONE}

# Dates of day, month and year in three orders, and a time after them.
DATE_ISO8601=%{YEAR4}-%{MONTHNUM2}-%{MONTHDAY2}
DATE_EU=\b%{MONTHDAY}[./-]%{MONTHNUM}[./-](?:%{YEAR4}|[0-9]{2})
DATE_US=\b%{MONTHNUM}[/-]%{MONTHDAY}[/-](?:%{YEAR4}|[0-9]{2})
DATE=(?:%{DATE_US}|%{DATE_EU})
DATESTAMP=%{DATE}[ -]%{TIME}

# ISO 8601 and RFC 3339, with a comma before the fraction as log4j and Python write it, and also with a blank before the
# offset. TIMESTAMP_BASIC is the form without hyphens and colons, and TIMESTAMP_RFC3339 that of rsyslog and the journal, with a
# T and an offset.
TIMESTAMP_BASIC=%{YEAR4}%{MONTHNUM2}%{MONTHDAY2}T%{HOUR2}%{MINUTE}%{SECOND}?%{ISO8601_TIMEZONE}?
TIMESTAMP_RFC3339=%{DATE_ISO8601}T%{HOUR2}:%{MINUTE}:%{SECOND}%{ISO8601_TIMEZONE}
TIMESTAMP_ISO8601=(?:%{DATE_ISO8601}[T ]%{HOUR}:%{MINUTE}(?::%{SECOND})?(?:%{ISO8601_TIMEZONE}| [+-]%{HOUR2}:?%{MINUTE}\b)?|%{TIMESTAMP_BASIC})

# Go's log package and nginx (year/month/day), C's asctime, RFC 5322 (3.3), and the output of `date`.
TIMESTAMP_SLASHES=%{YEAR4}/%{MONTHNUM2}/%{MONTHDAY2} %{TIME}
TIMESTAMP_CTIME=%{DAY} %{MONTH} +%{MONTHDAY} %{TIME} %{YEAR4}
TIMESTAMP_RFC2822=%{DAY}, %{MONTHDAY} %{MONTH} %{YEAR4} %{TIME} (?:[+-]%{HOUR2}%{MINUTE}|GMT|UTC)
DATESTAMP_RFC822=%{DAY} %{MONTH} +%{MONTHDAY} %{YEAR4} %{TIME} %{TZ}
DATESTAMP_RFC2822=%{TIMESTAMP_RFC2822}
DATESTAMP_OTHER=%{DAY} %{MONTH} +%{MONTHDAY} %{TIME} %{TZ} %{YEAR4}

# Dates with the name of the month and a time after them (Cisco, PHP, Django, Oracle's 28-NOV-2026, MikroTik's nov/28/2026), dates
# with a time of twelve hours (Windows), without a year (Android; Snort's 11/28-06:25:01), and without marks.
TIMESTAMP_MONTHNAME=(?:%{MONTHDAY}[ /-](?i:%{MONTH})[ /-]%{YEAR4}|(?i:%{MONTH})(?: +|/)%{MONTHDAY}(?:,? |/)%{YEAR4}),?[ :]%{TIME}(?: %{TZ})?
DATESTAMP_12H=%{DATE},? +%{TIME} ?[AaPp][Mm]\b
DATESTAMP_SHORT=%{MONTHNUM2}[-/]%{MONTHDAY2}[ -]%{TIME}
DATESTAMP_COMPACT=%{YEAR4}%{MONTHNUM2}%{MONTHDAY2}[T_ -]%{TIME}

# The times of WMI (CIM_DATETIME), of Apache Tomcat, of Unix (seconds or milliseconds since 1970), and of web servers (the
# Common Log Format).
DATESTAMP_EVENTLOG=%{YEAR4}%{MONTHNUM2}%{MONTHDAY2}%{HOUR2}%{MINUTE}%{SECOND}(?:[+-][0-9]{3})?
CATALINA_DATESTAMP=(?:%{MONTH} %{MONTHDAY}, %{YEAR4} %{TIME} [AP]M|%{MONTHDAY}-%{MONTH}-%{YEAR4} %{TIME})
TOMCAT_DATESTAMP=%{DATE_ISO8601} %{TIME} %{ISO8601_TIMEZONE}
TIMESTAMP_UNIX=\b[0-9]{10}(?:[0-9]{3}|\.[0-9]+)?\b
HTTPDATE=\b%{MONTHDAY}/%{MONTH}/%{YEAR4}:%{TIME} [+-]%{HOUR2}%{MINUTE}

# The times of syslog: RFC 3164 (4.1.2), also with a fraction, and RFC 3339 as rsyslog writes it.
SYSLOGTIMESTAMP=%{MONTH} +%{MONTHDAY} %{TIME}
SYSLOGTIME=(?:%{SYSLOGTIMESTAMP}|%{TIMESTAMP_ISO8601})
"##;
