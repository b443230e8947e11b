//! Which definitions are for whole lines of a program's log, each with an example line.

use std::alloc::{AllocError, Global};

/// A definition that is for whole lines of a program's log. The other definitions are for parts of lines.
#[derive(Clone, Copy)]
pub struct LineFormat {
    /// The name of the definition.
    pub name: &'static str,
    /// What has to be found in a line as well for it to be counted as one of this format, if the
    /// definition by itself also matches lines of other programs.
    pub needs: Option<&'static str>,
    /// A line of this format. Its names and addresses are those that are reserved for documentation.
    pub example: &'static str,
}

/// The formats of lines, each as `NAME=EXAMPLE`. Of several names for one format, one is here.
const EXAMPLES: &str = r##"SYSLOGLINE=Mar  7 04:05:06 web-07 systemd[1]: Started session-412.scope.
SYSLOG5424LINE=<165>1 2026-03-07T04:05:06.003Z web-07 payments 2201 ID47 [request@32473 id="7" port="8080"] accepted
JOURNALLINE=2026-03-07T04:05:06+0100 web-07 systemd[1]: Started session-412.scope.
JOURNALMONOTONICLINE=[ 8123.456789] web-07 systemd[1]: Started session-412.scope.
DMESGLINE=[    1.234567] usb 1-1: new high-speed USB device number 2 using xhci_hcd
SSHDLINE=Mar  7 04:05:09 web-07 sshd[2201]: Failed password for invalid user admin from 203.0.113.9 port 51240 ssh2
PAMLINE=Mar  7 04:06:31 web-07 sshd[2207]: pam_unix(sshd:session): session opened for user deploy(uid=1001) by (uid=0)
CRONLOG=Mar  7 04:15:01 db1 CRON[20911]: (root) CMD (/usr/local/bin/backup)
SUDOLINE=Mar  7 04:06:31 web-07 sudo:    alice : TTY=pts/1 ; PWD=/home/alice ; USER=root ; COMMAND=/usr/bin/systemctl restart nginx
IPTABLESLINE=Mar  7 04:05:09 web-07 kernel: [ 8123.456789] [UFW BLOCK] IN=eth0 OUT= MAC=52:54:00:12:34:56:52:54:00:65:43:21:08:00 SRC=203.0.113.9 DST=192.0.2.1 LEN=60 TOS=0x00 PREC=0x00 TTL=52 ID=61266 DF PROTO=TCP SPT=51234 DPT=22 WINDOW=64240 RES=0x00 SYN URGP=0
AUDITLOG=type=USER_LOGIN msg=audit(1772856306.123:456): pid=2210 uid=0 auid=1000 ses=4 msg='op=login id=1000 exe="/usr/sbin/sshd" hostname=192.0.2.17 addr=192.0.2.17 terminal=/dev/pts/1 res=success'
DPKGLOG=2026-03-07 04:05:06 upgrade libc6:amd64 2.36-9+deb12u9 2.36-9+deb12u10
COMMONAPACHELOG=192.0.2.17 - alice [07/Mar/2026:04:05:06 +0000] "GET /a?b=c HTTP/1.1" 200 2326
COMBINEDAPACHELOG=192.0.2.17 - - [07/Mar/2026:04:05:06 +0000] "GET / HTTP/1.1" 200 2326 "https://www.example.com/" "curl/8.5.0"
HTTPD_VHOSTLOG=www.example.com:443 192.0.2.17 - - [07/Mar/2026:04:05:06 +0000] "GET / HTTP/1.1" 200 2326 "-" "curl/8.5.0"
HTTPD_ERRORLOG=[Sat Mar 07 04:05:06.123456 2026] [proxy:error] [pid 9356:tid 140] (111)Connection refused: [client 192.0.2.17:51234] AH00957: http: attempt to connect to 198.51.100.4:8080 failed
NGINXACCESS=192.0.2.17 - - [07/Mar/2026:04:05:06 +0000] "GET / HTTP/1.1" 200 612 "-" "curl/8.5.0" "198.51.100.7"
NGINXERROR=2026/03/07 04:05:06 [error] 812#812: *4417 open() "/srv/www/favicon.ico" failed (2: No such file or directory), client: 192.0.2.10, server: www.example.com, request: "GET /favicon.ico HTTP/1.1", host: "www.example.com"
HAPROXYHTTP=Mar  7 04:05:06 web-07 haproxy[14389]: 192.0.2.17:33317 [07/Mar/2026:04:05:06.655] http-in static/srv1 10/0/30/69/109 200 2750 - - ---- 1/1/1/1/0 0/0 {www.example.com} {} "GET /index.html HTTP/1.1"
HAPROXYTCP=Mar  7 04:05:06 web-07 haproxy[14387]: 192.0.2.17:33313 [07/Mar/2026:04:05:01.443] fnt bck/srv1 0/0/5007 212 -- 0/0/0/0/3 0/0
HAPROXYHTTPBASE=192.0.2.17:33317 [07/Mar/2026:04:05:06.655] http-in static/srv1 10/0/30/69/109 200 2750 - - ---- 1/1/1/1/0 0/0 "GET /index.html HTTP/1.1"
HAPROXYTCPBASE=192.0.2.17:33313 [07/Mar/2026:04:05:01.443] fnt bck/srv1 0/0/5007 212 -- 0/0/0/0/3 0/0
SQUID3=1772856306.123    217 192.0.2.17 TCP_MISS/200 3456 GET http://www.example.com/ alice HIER_DIRECT/198.51.100.4 text/html
TRAEFIKACCESS=192.0.2.17 - alice [07/Mar/2026:04:05:06 +0000] "GET /a?b=c HTTP/2.0" 200 2326 "https://www.example.com/" "curl/8.5.0" 82 "web@docker" "http://198.51.100.4:80" 14ms
IISACCESS=2026-03-07 04:05:06 198.51.100.4 GET /app/default.htm id=7 443 alice 192.0.2.17 Mozilla/5.0+(Windows+NT+10.0;+Win64;+x64) https://www.example.com/ 200 0 0 17
ENVOYACCESS=[2026-03-07T04:05:06.123Z] "GET /a?b=c HTTP/1.1" 200 - 0 512 6 4 "192.0.2.17" "curl/8.5.0" "4b0a2c3d-0000-4000-8000-012345678901" "www.example.com" "198.51.100.4:80"
UWSGILOG=[pid: 2201|app: 0|req: 7/12] 192.0.2.17 (alice) {41 vars in 671 bytes} [Sat Mar  7 04:05:06 2026] GET /a?b=c => generated 21 bytes in 3 msecs (HTTP/1.1 200) 2 headers in 71 bytes (1 switches on core 0)
S3_ACCESS_LOG=79a59df900b949e5 DOC-EXAMPLE-BUCKET1 [07/Mar/2026:04:05:06 +0000] 192.0.2.17 79a59df900b949e5 3E57427F3EXAMPLE REST.GET.OBJECT a.txt "GET /a.txt HTTP/1.1" 200 - 113 2662992 70 10 "-" "curl/8.5.0" -
ELB_ACCESS_LOG=2026-03-07T04:05:06.945958Z my-loadbalancer 192.0.2.17:2817 198.51.100.1:80 0.000073 0.001048 0.000057 200 200 0 29 "GET http://www.example.com:80/a?b=c HTTP/1.1" "curl/8.5.0" - -
ALB_ACCESS_LOG=https 2026-03-07T04:05:06.186641Z app/my-loadbalancer/50dc6c495c0c9188 192.0.2.17:2817 198.51.100.1:80 0.086 0.048 0.037 200 200 0 57 "GET https://www.example.com:443/ HTTP/1.1" "curl/8.5.0" ECDHE-RSA-AES128-GCM-SHA256 TLSv1.2 arn:aws:elasticloadbalancing:us-east-2:123456789012:targetgroup/my-targets/73e2d6bc24d8a067 "Root=1-58337281-1d84f3d73c47ec4e58577259" "www.example.com" "session-reused" 1 2026-03-07T04:05:06.048000Z
VPC_FLOW_LOG=2 123456789012 eni-1235b8ca123456789 192.0.2.17 198.51.100.4 51234 443 6 20 4249 1772856306 1772856366 ACCEPT OK
CISCOLINE=<166>Mar  7 2026 04:05:06 fw1 : %ASA-6-302013: Built outbound TCP connection 17 for outside:203.0.113.9/443 (203.0.113.9/443) to inside:192.0.2.17/51234 (198.51.100.7/51234)
NETSCREENSESSIONLOG=Mar  7 04:05:06 fw1 fw1: NetScreen device_id=fw1  [Root]system-notification-00257(traffic): start_time="2026-03-07 04:05:05" duration=1 policy_id=17 service=http proto=6 src zone=Trust dst zone=Untrust action=Permit sent=1024 rcvd=2048 src=192.0.2.17 dst=203.0.113.9 src_port=51234 dst_port=80 src-xlated ip=198.51.100.7 port=1024 dst-xlated ip=203.0.113.9 port=80 session_id=4711 reason=Close - TCP FIN
SHOREWALL=Mar  7 04:05:09 fw1 kernel: Shorewall:net2fw:DROP:IN=eth0 OUT= MAC=52:54:00:12:34:56:52:54:00:65:43:21:08:00 SRC=203.0.113.9 DST=192.0.2.1 LEN=60 TOS=0x00 PREC=0x00 TTL=52 ID=61266 DF PROTO=TCP SPT=51234 DPT=22 WINDOW=64240 RES=0x00 SYN URGP=0
SNORTALERT=03/07-04:05:06.123456  [**] [1:2100498:7] GPL ATTACK_RESPONSE id check returned root [**] [Classification: Potentially Bad Traffic] [Priority: 2] {TCP} 203.0.113.9:80 -> 192.0.2.17:51234
FAIL2BAN=2026-03-07 04:05:06,123 fail2ban.actions        [2201]: NOTICE  [sshd] Ban 203.0.113.9
FORTIGATE=date=2026-03-07 time=04:05:06 devname="fw1" devid="FGT60E0000000001" eventtime=1772856306123456789 tz="+0100" logid="0000000013" type="traffic" subtype="forward" level="notice" vd="root" srcip=192.0.2.17 srcport=51234 dstip=203.0.113.9 dstport=443 action="close"
PANOSTRAFFIC=Mar  7 04:05:06 fw1 1,2026/03/07 04:05:06,001801000001,TRAFFIC,end,2305,2026/03/07 04:05:05,192.0.2.17,203.0.113.9,198.51.100.7,203.0.113.9,allow-web,example\alice,,ssl,vsys1,trust,untrust,ethernet1/2,ethernet1/1,forward-all,2026/03/07 04:05:06,4711,1,51234,443,40001,443,0x400053,tcp,allow,5120,1024,4096,20,2026/03/07 04:04:51,15,business-and-economy,0
WINFIREWALL=2026-03-07 04:05:06 DROP TCP 203.0.113.9 192.0.2.17 51234 22 60 S 305419896 0 64240 - - - RECEIVE
BIND9=07-Mar-2026 04:05:06.123 queries: info: client @0x7f8b1c0a 192.0.2.17#51234 (www.example.com): query: www.example.com IN A +E(0)K (198.51.100.1)
DNSMASQLINE=Mar  7 04:05:06 gw dnsmasq[2201]: query[A] www.example.com from 192.0.2.17
COREDNS=[INFO] 192.0.2.17:51234 - 4711 "A IN www.example.com. udp 41 false 512" NOERROR qr,rd,ra 82 0.000123456s
UNBOUND=[1772856306] unbound[2201:0] info: 192.0.2.17 www.example.com. A IN NOERROR 0.000000 1 49
XFERLOG=Sat Mar  7 04:05:06 2026 1 192.0.2.17 1024 /srv/ftp/pub/a.txt b _ o r alice ftp 0 * c
EXIM=2026-03-07 04:05:06 1tqLmA-0002Xx-1A <= alice@example.com H=mail.example.com [192.0.2.17] P=esmtps S=1024
POSTFIXLINE=Mar  7 04:05:06 mail postfix/smtp[2201]: 3F6F490C56: to=<bob@example.com>, relay=mx.example.com[198.51.100.4]:25, delay=1.2, delays=0.1/0/0.4/0.7, dsn=2.0.0, status=sent (250 2.0.0 Ok: queued as F5A86F7CF0)
DOVECOTLOGIN=Mar  7 04:05:06 mail dovecot: imap-login: Login: user=<alice>, method=PLAIN, rip=192.0.2.17, lip=198.51.100.1, mpid=2201, TLS, session=<k2mSEBTi1a7AAAIR>
SLAPDLINE=Mar  7 04:05:06 ldap1 slapd[2201]: conn=1017 op=1 SRCH base="dc=example,dc=com" scope=2 deref=0 filter="(uid=alice)"
DHCPDLINE=Mar  7 04:05:06 gw dhcpd[2201]: DHCPACK on 192.0.2.50 to 52:54:00:12:34:56 (laptop-3) via eth0
NAGIOSSTATELINE=[1772856306] CURRENT SERVICE STATE: web1;HTTP;OK;HARD;1;HTTP OK
NAGIOSLOGLINE=[1772856306] SERVICE ALERT: web1;HTTP;CRITICAL;HARD;3;Connection refused
POSTGRESQL=2026-03-07 04:05:06.123 UTC [2201] app@orders ERROR:  duplicate key value violates unique constraint "orders_pkey"
PGBOUNCERLOG=2026-03-07 04:05:06.123 UTC [2201] LOG C-0x55d3ad8a6a70: orders/app@192.0.2.17:51234 login attempt: db=orders user=app tls=no
MYSQLERROR=2026-03-07T04:05:06.123456Z 8 [Warning] [MY-010055] [Server] IP address '192.0.2.5' could not be resolved
MARIADBERROR=2026-03-07  4:05:06 12 [Warning] Aborted connection 12 to db: 'orders' user: 'app' host: '192.0.2.7' (Got timeout reading communication packets)
REDISLOG=2201:M 07 Mar 2026 04:05:06.123 * Ready to accept connections
REDISMONLOG=1772856306.107412 [0 192.0.2.17:60866] "get" "session:7"
MONGO_LOG=Sat Mar  7 04:05:06.123 [conn17] end connection 192.0.2.17:60866
MONGO3_LOG=2026-03-07T04:05:06.123+0100 I NETWORK  [listener] connection accepted from 192.0.2.17:60866 #17 (1 connection now open)
MSSQLLOG=2026-03-07 04:05:06.12 spid51      Starting up database 'orders'.
CATALINALOG=07-Mar-2026 04:05:06.123 INFO [main] org.apache.catalina.startup.Catalina.start Server startup in [1234] milliseconds
TOMCATLOG=2026-03-07 04:05:06,123 +0100 | ERROR | com.example.Service - closed
LOG4JLOG=2026-03-07 04:05:06,123 [main] INFO  com.example.Main - started
LOGBACKLOG=2026-03-07 04:05:06.123 INFO  [main] com.example.Main - started
SPRINGBOOTLOG=2026-03-07T04:05:06.123+01:00  INFO 2201 --- [           main] o.a.c.c.C.[Tomcat].[localhost].[/]       : Initializing Spring embedded WebApplicationContext
JVMLOG=[0.123s][info][gc,start    ] GC(0) Pause Young (Normal) (G1 Evacuation Pause)
ELASTICSEARCHLOG=[2026-03-07T04:05:06,123][INFO ][o.e.n.Node               ] [node-1] started
KAFKALOG=[2026-03-07 04:05:06,123] INFO [KafkaServer id=1] started (kafka.server.KafkaServer)
ZOOKEEPERLOG=2026-03-07 04:05:06,123 [myid:1] - INFO  [main:QuorumPeerConfig@169] - Reading configuration from: /etc/zookeeper/conf/zoo.cfg
CASSANDRALOG=INFO  [main] 2026-03-07 04:05:06,123 StorageService.java:650 - Cassandra version: 4.1.3
MINECRAFTLOG=[04:05:06] [Server thread/INFO]: Done (5.123s)! For help, type "help"
KLOG=I0307 04:05:06.123456    2201 controller.go:123] Starting controller
CRILOG=2026-03-07T04:05:06.669794202Z stdout F accepted
GOLOG=2026/03/07 04:05:06 accepted a connection
LOGFMT=time=2026-03-07T04:05:06.123Z level=INFO msg="server started" port=8080
PYTHONBASICLOG=WARNING:root:the disk is nearly full
PYTHONLOG=2026-03-07 04:05:06,618 - payments - DEBUG - accepted
LOGURULOG=2026-03-07 04:05:06.123 | INFO     | __main__:<module>:3 - accepted
GUNICORNLOG=[2026-03-07 04:05:06 +0000] [2201] [INFO] Listening at: http://127.0.0.1:8000 (2201)
CELERYLOG=[2026-03-07 04:05:06,123: INFO/MainProcess] Connected to amqp://guest@198.51.100.4:5672//
AIRFLOWLOG=[2026-03-07T04:05:06.123+0000] {taskinstance.py:1730} INFO - Marking task as SUCCESS
HOMEASSISTANTLOG=2026-03-07 04:05:06.123 INFO (MainThread) [homeassistant.core] Starting Home Assistant
RAILS3=Started GET "/users/7" for 192.0.2.17 at 2026-03-07 04:05:06 +0000
RUBY_LOGGER=I, [2026-03-07T04:05:06.123456 #2201]  INFO -- worker: started
SERILOG=2026-03-07 04:05:06.123 +01:00 [INF] Now listening on: http://127.0.0.1:5000
PHPERRORLOG=[07-Mar-2026 04:05:06 UTC] PHP Warning:  Undefined variable $a in /srv/www/index.php on line 12
PHPFPMLOG=[07-Mar-2026 04:05:06] NOTICE: fpm is running, pid 2201
MONOLOGLOG=[2026-03-07T04:05:06.123456+00:00] security.DEBUG: Checking for authenticator support. {"authenticators":3} []
HCLOG=2026-03-07T04:05:06.123Z [INFO]  agent: Synced node info
RABBITMQLOG=2026-03-07 04:05:06.123456+00:00 [info] <0.684.0> accepting AMQP connection <0.684.0> (192.0.2.17:51234 -> 198.51.100.4:5672)
"##;

/// The formats of lines with tabs, in the same form.
const EXAMPLES_WITH_TABS: &str =
    "CLOUDFRONT_ACCESS_LOG=2026-03-07\t04:05:06\tLAX1\t392\t192.0.2.17\tGET\td111111abcdef8.cloudfront.net\t/index.html\t200\t-\tcurl/8.5.0\t-\t-\tHit\tSOX4xwn4XV6Q4rgb7XiVGOHms_BGlTAC4KyHmureZmBNrjGdRLiNIQ==\td111111abcdef8.cloudfront.net\thttps\t23\t0.001\t-\tTLSv1.2\tECDHE-RSA-AES128-GCM-SHA256\tHit
BRO_CONN=1772856306.123456\tCHhAvVGS1DHFjwGM9\t192.0.2.17\t51234\t203.0.113.9\t443\ttcp\tssl\t1.5\t1024\t2048\tSF\tT\tF\t0\tShADadfF\t10\t1544\t12\t2672\t-
BRO_DNS=1772856306.123456\tCHhAvVGS1DHFjwGM9\t192.0.2.17\t51234\t198.51.100.1\t53\tudp\t4711\t0.017\twww.example.com\t1\tC_INTERNET\t1\tA\t0\tNOERROR\tF\tF\tT\tT\t0\t203.0.113.9\t60.000000\tF
BRO_HTTP=1772856306.123456\tCHhAvVGS1DHFjwGM9\t192.0.2.17\t51234\t203.0.113.9\t80\t1\tGET\twww.example.com\t/\t-\tcurl/8.5.0\t0\t4705\t200\tOK\t-\t-\t-\t(empty)\t-\t-\t-\t-\t-\tFakNcS1Jfe01uljb3\ttext/html
BRO_FILES=1772856306.123456\tFakNcS1Jfe01uljb3\t203.0.113.9\t192.0.2.17\tCHhAvVGS1DHFjwGM9\tHTTP\t0\tMD5,SHA1\ttext/html\t-\t0.5\tF\tF\t4705\t4705\t0\t0\tF\t-\tc3ab8ff13720e8ad9047dd39466b3c89\t-\t-\t-
JENKINSLOG=2026-03-07 04:05:06.123+0000 [id=28]\tINFO\thudson.WebAppMain$3#run: Jenkins is fully up and running
";

/// Returns what has to be found in lines of this format, if others match its definition, too.
fn needs_of(name: &str) -> Option<&'static str> {
    match name {
        "SYSLOGLINE" => Some(
            "^(?:<%{SYSLOGPRIORITY}>)?(?:%{SYSLOGTIMESTAMP}|%{TIMESTAMP_RFC3339}) (?:<[0-9.]+> )?%{SYSLOGHOST} %{SYSLOGPROG}:(?: |$)",
        ),
        "JOURNALLINE" => Some(
            "^(?:%{SYSLOGTIMESTAMP}|%{TIMESTAMP_RFC3339}|%{DAY} %{DATE_ISO8601} %{TIME} %{TZ}|%{TIMESTAMP_UNIX}) %{SYSLOGHOST} %{SYSLOGPROG}:(?: |$)",
        ),
        "JOURNALMONOTONICLINE" => Some(
            r"^%{DMESGTIME} %{SYSLOGHOST} (?:kernel|%{PROGRAM}\[[0-9]+\]):(?: |$)",
        ),
        "NAGIOSLOGLINE" => Some(r"^\[[0-9]{10}\] (?:%{NAGIOSTYPE}: |Nagios |Warning: )"),
        "MONGO_LOG" => Some(r":[0-9]{2}\.[0-9]{3} \["),
        "CATALINALOG" => Some(r"[0-9M] (?:%{LOGLEVEL} \[|%{JAVANAME}\.%{JAVANAME})"),
        _ => None,
    }
}

fn push_formats(formats: &mut Vec<LineFormat>, examples: &'static str) -> Result<(), AllocError> {
    for line in examples.lines() {
        if let Some((name, example)) = line.split_once('=') {
            let needs = needs_of(name);
            formats.push(LineFormat {
                name,
                needs,
                example,
            })?;
        }
    }
    Ok(())
}

/// Returns the formats of lines.
pub fn line_formats(alloc: Global) -> Result<Vec<LineFormat>, AllocError> {
    let mut formats = Vec::new(alloc);
    push_formats(&mut formats, EXAMPLES)?;
    push_formats(&mut formats, EXAMPLES_WITH_TABS)?;
    Ok(formats)
}
