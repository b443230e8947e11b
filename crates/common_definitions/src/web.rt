//! The logs of web servers and proxies.

pub const WEB: &str = r##"
# Requests (RFC 9110, 9112). 000 is what some servers and proxies log if they sent no status.
HTTPMETHOD=\b[A-Z]+\b
HTTPVERSION=[0-9](?:\.[0-9])?
HTTPSTATUS=\b(?:[1-5][0-9]{2}|000)\b
HTTPREQUEST=(?:%{HTTPMETHOD:verb} %{NOTSPACE:request}(?: HTTP/%{HTTPVERSION:httpversion})?|%{INQUOTES:rawrequest})

# The access logs of Apache's httpd (its documentation, "Log Files"): the Common Log Format, the combined format, and the
# combined format with the virtual host before it. A status or a size that is `-` has no key.
HTTPDUSER=\S+
HTTPD_FIELDS=%{HTTPDUSER:ident} %{HTTPDUSER:auth} \[%{HTTPDATE:timestamp}\] "%{HTTPREQUEST}" (?:-|%{HTTPSTATUS:response:int}) (?:-|%{NONNEGINT:bytes:int})
HTTPD_COMMONLOG=%{IPORHOST:clientip} %{HTTPD_FIELDS}
HTTPD_COMBINEDLOG=%{HTTPD_COMMONLOG} %{QS:referrer} %{QS:agent}
HTTPD_VHOSTLOG=%{HOSTNAME:vhost}:%{PORT:vhost_port:int} %{HTTPD_COMBINEDLOG}
COMMONAPACHELOG=%{HTTPD_COMMONLOG}
COMBINEDAPACHELOG=%{HTTPD_COMBINEDLOG}

# The error logs of Apache's httpd (its documentation, "ErrorLogFormat"): of 2.0 and 2.2, of 2.4, and of all of them.
HTTPDERROR_DATE=%{TIMESTAMP_CTIME}
HTTPDMODULE=[0-9A-Za-z_]+
HTTPDERRORCODE=AH[0-9]{5}
HTTPDPROCESS=\[pid %{NONNEGINT:pid:int}(?::tid %{NONNEGINT:tid:int})?\](?: %{HTTPDSOURCE:file}\(%{NONNEGINT:line:int}\):)?
HTTPDSOURCE=[^\s()]+
HTTPDPROXYERROR=\(%{NONNEGINT:proxy_errorcode:int}\)%{DATA:proxy_message}:
HTTPDCLIENT=\[client %{IPORHOST:clientip}(?::%{PORT:clientport:int})?\]
HTTPDERRORTEXT=(?: %{HTTPDPROXYERROR})?(?: %{HTTPDCLIENT})?(?: %{HTTPDERRORCODE:errorcode}:)? %{GREEDYDATA:message}
HTTPD20_ERRORLOG=\[%{HTTPDERROR_DATE:timestamp}\] \[%{LOGLEVEL:loglevel}\](?: %{HTTPDCLIENT})? %{GREEDYDATA:message}
HTTPD24_ERRORLOG=\[%{HTTPDERROR_DATE:timestamp}\] \[%{HTTPDMODULE:module}?:%{LOGLEVEL:loglevel}\] %{HTTPDPROCESS}%{HTTPDERRORTEXT}
HTTPD_ERRORLOG=\[%{HTTPDERROR_DATE:timestamp}\] \[(?:%{HTTPDMODULE:module}?:)?%{LOGLEVEL:loglevel}\](?: %{HTTPDPROCESS})?%{HTTPDERRORTEXT}

# The access log of nginx in its format `combined`, and in the format `main` of its packages, which has the header
# X-Forwarded-For at its end (ngx_http_log_module). The client of a Unix socket is `unix:`.
NGINXADDRESS=(?:unix:|%{IPORHOST})
NGINXACCESS=%{NGINXADDRESS:clientip} %{HTTPD_FIELDS} %{QS:referrer} %{QS:agent}(?: %{QS:forwarded_for})?

# The error log of nginx (ngx_core_module, error_log). `message` ends before the client, and the parts after the client have
# keys of their own.
NGINXHOST=[^ ,]+
NGINXPROCESS=%{NONNEGINT:pid:int}#%{NONNEGINT:tid:int}:(?: \*%{NONNEGINT:connection:int})?
NGINXREQUEST=(?:, server: %{NGINXHOST:server}?)?(?:, request: "%{INQUOTES:request}")?(?:, subrequest: "%{INQUOTES:subrequest}")?
NGINXUPSTREAM=(?:, upstream: "%{INQUOTES:upstream}")?(?:, host: "%{INQUOTES:host}")?(?:, referrer: "%{INQUOTES:referrer}")?
NGINXERROR=%{TIMESTAMP_SLASHES:timestamp} \[%{LOGLEVEL:level}\] %{NGINXPROCESS} %{DATA:message}(?:, client: %{NGINXADDRESS:client}%{NGINXREQUEST}%{NGINXUPSTREAM})?$

# HAProxy's logs (its Configuration Manual, "Log formats"): of HTTP and of TCP. HAPROXYHTTPBASE and HAPROXYTCPBASE are the
# messages alone, and HAPROXYHTTP and HAPROXYTCP lines of syslog with them.
HAPROXYTIME=%{HOUR2}:%{MINUTE}:%{SECOND}
HAPROXYDATE=%{MONTHDAY2}/%{MONTH}/%{YEAR4}:%{HAPROXYTIME}
HAPROXYADDRESS=(?:unix|%{IP})
HAPROXYBACKEND=[^\s/]+
HAPROXYSUM=[+-]?[0-9]+
HAPROXYHEAD=%{HAPROXYADDRESS:client_ip}:%{PORT:client_port:int} \[%{HAPROXYDATE:accept_date}\] %{NOTSPACE:frontend_name} %{HAPROXYBACKEND:backend_name}/%{NOTSPACE:server_name}
HAPROXYCONNECTIONS=%{NONNEGINT:actconn:int}/%{NONNEGINT:feconn:int}/%{NONNEGINT:beconn:int}/%{NONNEGINT:srvconn:int}/%{HAPROXYSUM:retries:int} %{NONNEGINT:srv_queue:int}/%{NONNEGINT:backend_queue:int}
HAPROXYHTTPTIMES=%{INT:time_request:int}/%{INT:time_queue:int}/%{INT:time_backend_connect:int}/%{INT:time_backend_response:int}/%{HAPROXYSUM:time_duration:int}
HAPROXYCOOKIES=%{NOTSPACE:captured_request_cookie} %{NOTSPACE:captured_response_cookie}
HAPROXYCAPTURED=[^{}]*
HAPROXYCAPTUREDREQUESTHEADERS=%{HAPROXYCAPTURED:captured_request_headers}
HAPROXYCAPTUREDRESPONSEHEADERS=%{HAPROXYCAPTURED:captured_response_headers}
HAPROXYHEADERS=(?:\{%{HAPROXYCAPTUREDREQUESTHEADERS}\} )?(?:\{%{HAPROXYCAPTUREDRESPONSEHEADERS}\} )?
HAPROXYUSER=[^\s/?#@":]+
HAPROXYHOST=(?:%{URIPROTO:http_proto}://(?:%{HAPROXYUSER:http_user}(?::[^\s/?#@"]*)?@)?)?%{URIHOST:http_host}
HAPROXYHTTPREQUESTLINE=(?:<BADREQ>|%{HTTPMETHOD:http_verb} %{HAPROXYHOST}?%{NOTSPACE:http_request}?(?: HTTP/%{HTTPVERSION:http_version})?)
HAPROXYHTTPBASE=%{HAPROXYHEAD} %{HAPROXYHTTPTIMES} %{INT:http_status_code:int} %{HAPROXYSUM:bytes_read:int} %{HAPROXYCOOKIES} %{NOTSPACE:termination_state} %{HAPROXYCONNECTIONS} %{HAPROXYHEADERS}"%{HAPROXYHTTPREQUESTLINE}"?
HAPROXYTCPBASE=%{HAPROXYHEAD} %{INT:time_queue:int}/%{INT:time_backend_connect:int}/%{HAPROXYSUM:time_duration:int} %{HAPROXYSUM:bytes_read:int} %{NOTSPACE:termination_state} %{HAPROXYCONNECTIONS}
HAPROXYHTTP=%{SYSLOGBASE} %{HAPROXYHTTPBASE}
HAPROXYTCP=%{SYSLOGBASE} %{HAPROXYTCPBASE}

# The access log of Squid in its native format (Squid's wiki, "Feature: Customizable Log Formats").
SQUID3STATUS=[0-9]{3}
SQUID3RESULT=[A-Z_]+
SQUID3=%{NUMBER:timestamp:float} +%{INT:duration:int} %{IPORHOST:client_address} %{SQUID3RESULT:cache_result}/%{SQUID3STATUS:status_code:int} %{NONNEGINT:bytes:int} %{HTTPMETHOD:request_method} %{NOTSPACE:url} (?:-|%{NOTSPACE:user}) %{SQUID3RESULT:hierarchy_code}/(?:-|%{NOTSPACE:server}) (?:-|%{NOTSPACE:content_type})

# The access log of Traefik in its format `common` (its documentation, "Access Logs"): the combined format, and then the number of
# requests since the start, the router, the server's URL and the duration. A router or a server that is `-` has no key.
TRAEFIKACCESS=%{HTTPD_COMBINEDLOG} %{NONNEGINT:request_count:int} "(?:-|%{INQUOTES:router_name})" "(?:-|%{INQUOTES:service_url})" %{NONNEGINT:duration_ms:int}ms

# The log of IIS in the W3C extended format, with the fields that are chosen by default, in their order (IIS's "Configuration
# Reference", logExtFileFlags of logFile). IIS 7 has no cs(Referer). A field that is `-` has no key.
IISREQUEST=%{IP:s_ip} %{HTTPMETHOD:cs_method} %{NOTSPACE:cs_uri_stem} (?:-|%{NOTSPACE:cs_uri_query}) %{PORT:s_port:int} (?:-|%{NOTSPACE:cs_username}) %{IP:c_ip}
IISRESULT=%{HTTPSTATUS:sc_status:int} %{NONNEGINT:sc_substatus:int} %{NONNEGINT:sc_win32_status:int} %{NONNEGINT:time_taken:int}
IISACCESS=%{TIMESTAMP_ISO8601:timestamp} %{IISREQUEST} (?:-|%{NOTSPACE:cs_user_agent})(?: (?:-|%{NOTSPACE:cs_referer}))? %{IISRESULT}

# The access log of Envoy in its default format (its documentation, "Access logging", "Default format string"). A value that is `-`
# has no key. A connection of TCP has no request, and its status is 0.
ENVOYREQUEST=(?:-|%{HTTPMETHOD:method}) (?:-|%{NOTSPACE:path}) (?:-|%{NOTSPACE:protocol})
ENVOYRESULT=%{NONNEGINT:response_code:int} (?:-|%{NOTSPACE:response_flags}) %{NONNEGINT:bytes_received:int} %{NONNEGINT:bytes_sent:int} %{NONNEGINT:duration:int} (?:-|%{NONNEGINT:upstream_service_time:int})
ENVOYHEADERS="(?:-|%{INQUOTES:x_forwarded_for})" "(?:-|%{INQUOTES:user_agent})" "(?:-|%{INQUOTES:request_id})" "(?:-|%{INQUOTES:authority})"
ENVOYACCESS=\[%{TIMESTAMP_ISO8601:timestamp}\] "%{ENVOYREQUEST}" %{ENVOYRESULT} %{ENVOYHEADERS} "(?:-|%{INQUOTES:upstream_host})"

# The log of requests of uWSGI (its documentation, "Formatting uWSGI requests logs", and its source core/logging.c), with the names
# that it has for its parts. `req` has the requests of the application and of all.
UWSGIUSER=[^()]+
UWSGIHEAD=pid: %{NONNEGINT:pid:int}\|app: %{INT:app:int}\|req: %{NONNEGINT:app_requests:int}/%{NONNEGINT:requests:int}
UWSGIREQUEST=%{IP:addr}? \(%{UWSGIUSER:user}?\) \{%{NONNEGINT:vars:int} vars in %{NONNEGINT:pktsize:int} bytes\} \[%{TIMESTAMP_CTIME:timestamp}\] %{HTTPMETHOD:method} %{NOTSPACE:uri}
UWSGIRESULT=generated %{NONNEGINT:rsize:int} bytes in %{NONNEGINT:msecs:int} msecs(?: via (?:sendfile|route|offload)\(\))? \(%{NOTSPACE:proto} %{HTTPSTATUS:status:int}\)
UWSGICOUNTS=%{NONNEGINT:headers:int} headers in %{NONNEGINT:hsize:int} bytes \(%{NONNEGINT:switches:int} switches on core %{NONNEGINT:core:int}\)
UWSGILOG=\[%{UWSGIHEAD}\] %{UWSGIREQUEST} => %{UWSGIRESULT} %{UWSGICOUNTS}
"##;
