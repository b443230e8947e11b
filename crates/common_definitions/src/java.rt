//! The logs of Java: stack traces, Tomcat, the usual layouts of log4j, Logback and Spring Boot, the JVM, and programs such as
//! Elasticsearch and Kafka.

pub const JAVA: &str = r##"
# Names and stack traces (java.lang.StackTraceElement.toString).
JAVANAME=[A-Za-z_$][0-9A-Za-z_$]*
JAVACLASS=%{JAVANAME}(?:\.%{JAVANAME})*(?:/0x[0-9A-Fa-f]+)?
JAVAMETHOD=(?:<(?:cl)?init>|%{JAVANAME})
JAVAFILE=[0-9A-Za-z_$][0-9A-Za-z_$. -]*
JAVAMODULE=(?:[0-9A-Za-z_$.@+-]*/){1,2}
JAVASTACKTRACEPART=\s*at %{JAVAMODULE}?%{JAVACLASS:class}\.%{JAVAMETHOD:method}\(%{JAVAFILE:file}(?::%{NONNEGINT:line:int})?\)

# The logs of Tomcat: catalina.out of its OneLineFormatter and of java.util.logging's SimpleFormatter (Tomcat's
# documentation, "Logging in Apache Tomcat"), and a layout of log4j with bars between its parts.
JAVATHREAD=[^\]]+
JAVALOGMESSAGE=.*
CATALINALOG=%{CATALINA_DATESTAMP:timestamp} (?:%{LOGLEVEL:level} \[%{JAVATHREAD:thread}\] )?%{JAVACLASS:class} %{JAVALOGMESSAGE:logmessage}
TOMCATLOG=%{TOMCAT_DATESTAMP:timestamp} \| %{LOGLEVEL:level} +\| %{JAVACLASS:class} - %{JAVALOGMESSAGE:logmessage}

# Versions of Maven ("POM Reference", "Version Order Specification").
MAVEN_VERSION=[0-9]+(?:\.[0-9]+)*(?:[.-](?:RELEASE|SNAPSHOT))?

# Usual layouts: '%d [%t] %-5p %c - %m' of log4j, '%d %-5level [%thread] %logger - %msg' of Logback (both manuals, chapter
# "Layouts"), and Spring Boot's own ("Logging" in its reference).
JAVALOGGER=[0-9A-Za-z_$.\[\]/-]+
LOG4JLOG=%{TIMESTAMP_ISO8601:timestamp} \[%{JAVATHREAD:thread}\] %{LOGLEVEL:level} +%{JAVALOGGER:logger} - %{JAVALOGMESSAGE:message}
LOGBACKLOG=%{TIMESTAMP_ISO8601:timestamp} +%{LOGLEVEL:level} +\[%{JAVATHREAD:thread}\] %{JAVALOGGER:logger} - %{JAVALOGMESSAGE:message}
SPRINGBOOTLOG=%{TIMESTAMP_ISO8601:timestamp} +%{LOGLEVEL:level} %{NONNEGINT:pid:int} --- (?:\[ *%{JAVATHREAD:application}\] )??\[ *%{JAVATHREAD:thread}\] %{JAVALOGGER:logger} +: %{JAVALOGMESSAGE:message}

# Elasticsearch and OpenSearch (their config/log4j2.properties): '[%d{ISO8601}][%-5p][%-25c{1.}] [%node_name]%marker %m'.
ELASTICSEARCHLOGGER=[^\s\[\]]+
ELASTICSEARCHNODE=[^\[\]]+
ELASTICSEARCHLOG=\[%{TIMESTAMP_ISO8601:timestamp}\]\[%{LOGLEVEL:level} *\]\[%{ELASTICSEARCHLOGGER:logger} *\] \[%{ELASTICSEARCHNODE:node}\] ?%{GREEDYDATA:message}

# Kafka (its config/log4j.properties): '[%d] %p %m (%c)', and with the line after the name in Kafka Connect.
KAFKALOGGER=%{JAVANAME}(?:\.%{JAVANAME})+
KAFKALOG=\[%{TIMESTAMP_ISO8601:timestamp}\] %{LOGLEVEL:level} %{GREEDYDATA:message} \(%{KAFKALOGGER:logger}(?::%{NONNEGINT:line:int})?\)

# ZooKeeper (its conf/log4j.properties and conf/logback.xml): '%d{ISO8601} [myid:%X{myid}] - %-5p [%t:%C{1}@%L] - %m'. A server
# alone has no myid.
ZOOKEEPERLOG=%{TIMESTAMP_ISO8601:timestamp} \[myid:%{NONNEGINT:myid:int}?\] - %{LOGLEVEL:level} +\[%{DATA:thread}:%{JAVACLASS:class}@%{NONNEGINT:line:int}\] - %{GREEDYDATA:message}

# Cassandra (its conf/logback.xml): '%-5level [%thread] %date{ISO8601} %F:%L - %msg'.
CASSANDRALOG=%{LOGLEVEL:level} +\[%{JAVATHREAD:thread}\] %{TIMESTAMP_ISO8601:timestamp} %{SOURCEFILE:file}:%{NONNEGINT:line:int} - %{GREEDYDATA:message}

# Jenkins (its documentation, "Viewing logs", and its class SupportLogFormatter), with tabs around the level. A record may have no
# method.
JENKINSLOG=%{TIMESTAMP_ISO8601:timestamp} \[id=%{NONNEGINT:id:int}\]\t%{LOGLEVEL:level}\t%{JAVACLASS:class}(?:#%{JAVAMETHOD:method})?: %{GREEDYDATA:message}

# The server of Minecraft (its configuration of log4j): '[%d{HH:mm:ss}] [%t/%level]: %msg'. Forge writes the logger before the colon.
MINECRAFTTHREAD=[^\[\]]+
MINECRAFTLOG=\[%{TIME:timestamp}\] \[%{MINECRAFTTHREAD:thread}/%{LOGLEVEL:level}\](?: \[%{MINECRAFTTHREAD:logger}\])?: %{GREEDYDATA:message}

# The JVM's own log (JEP 158, "Unified JVM Logging", and the option -Xlog of java): with its default decorations, uptime, level and
# tags, and also with the time before them.
JVMTAGS=[a-z]+(?:,[a-z]+)*
JVMLOG=(?:\[%{TIMESTAMP_ISO8601:timestamp}\])?\[%{NUMBER:uptime:float}s\]\[%{LOGLEVEL:level} *\]\[%{JVMTAGS:tags} *\] %{GREEDYDATA:message}
"##;
