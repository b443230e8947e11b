//! Addresses, hosts, ports and URIs.

pub const NETWORK: &str = r##"
# Addresses of IPv4 (RFC 791) and IPv6 (RFC 4291, 2.2, with a zone as in RFC 4007, 11).
IPV4OCTET=(?:25[0-5]|2[0-4][0-9]|1[0-9][0-9]|[1-9]?[0-9])
IPV4=\b%{IPV4OCTET}(?:\.%{IPV4OCTET}){3}\b
IPV6GROUP=[0-9A-Fa-f]{1,4}
IPV6FULL=\b(?:%{IPV6GROUP}:){6}(?:%{IPV4}|%{IPV6GROUP}:%{IPV6GROUP}\b)
IPV6TAIL5=(?:%{IPV4}|%{IPV6GROUP}(?::%{IPV6GROUP})?\b|\B)
IPV6TAIL4=(?:(?:%{IPV6GROUP}:)?%{IPV4}|%{IPV6GROUP}(?::%{IPV6GROUP}){0,2}\b|\B)
IPV6TAIL3=(?:(?:%{IPV6GROUP}:){0,2}%{IPV4}|%{IPV6GROUP}(?::%{IPV6GROUP}){0,3}\b|\B)
IPV6TAIL2=(?:(?:%{IPV6GROUP}:){0,3}%{IPV4}|%{IPV6GROUP}(?::%{IPV6GROUP}){0,4}\b|\B)
IPV6TAIL1=(?:(?:%{IPV6GROUP}:){0,4}%{IPV4}|%{IPV6GROUP}(?::%{IPV6GROUP}){0,5}\b|\B)
IPV6TAIL0=(?:(?:%{IPV6GROUP}:){0,5}%{IPV4}|%{IPV6GROUP}(?::%{IPV6GROUP}){0,6}\b|\B)
IPV6LONGHEAD=\b(?:(?:%{IPV6GROUP}:){7}:\B|(?:%{IPV6GROUP}:){6}:(?:%{IPV6GROUP}\b|\B)|(?:%{IPV6GROUP}:){5}:%{IPV6TAIL5}|(?:%{IPV6GROUP}:){4}:%{IPV6TAIL4})
IPV6SHORTHEAD=(?:\b(?:%{IPV6GROUP}:){3}:%{IPV6TAIL3}|\b(?:%{IPV6GROUP}:){2}:%{IPV6TAIL2}|\b%{IPV6GROUP}::%{IPV6TAIL1}|\B::%{IPV6TAIL0})
IPV6=(?:%{IPV6FULL}|%{IPV6LONGHEAD}|%{IPV6SHORTHEAD})(?:%[0-9A-Za-z._~-]+)?
IP=(?:%{IPV6}|%{IPV4})

# Names of hosts (RFC 1123, 2.1, and with the _ of DNS), ports, and mail addresses (RFC 5322, 3.4.1). Of the characters that
# a local part may have, EMAILLOCALPART takes those that hardly begin an address in the middle of another text.
HOSTLABEL=[0-9A-Za-z_](?:[0-9A-Za-z_-]{0,61}[0-9A-Za-z_])?
HOSTLABELS=\b%{HOSTLABEL}(?:\.%{HOSTLABEL})*\b
HOSTNAME=%{HOSTLABELS}\.?
IPORHOST=(?:%{IP}|%{HOSTNAME})
PORT=\b(?:6553[0-5]|655[0-2][0-9]|65[0-4][0-9]{2}|6[0-4][0-9]{3}|[1-5][0-9]{4}|[1-9][0-9]{0,3}|0)\b
HOSTPORT=(?:\[%{IPV6}\]|%{IPV4}|%{HOSTNAME}):%{PORT}
EMAILLOCALPART=[0-9A-Za-z_][0-9A-Za-z._+'~-]*
EMAILADDRESS=%{EMAILLOCALPART}@%{HOSTLABELS}

# URIs (RFC 3986) and their parts.
URIPROTO=\b[A-Za-z][0-9A-Za-z+.-]*
URIHOST=(?:\[%{IPV6}\]|%{IPV4}|%{HOSTNAME})(?::%{PORT})?
URIPATH=/[^\s?#"]*
URIQUERY=\?[^\s#"]*
URIPARAM=%{URIQUERY}
URIPATHQUERY=%{URIPATH}%{URIQUERY}?
URIPATHPARAM=%{URIPATHQUERY}
URI=%{URIPROTO}://(?:[^\s/?#@"]+@)?%{URIHOST}?%{URIPATH}?%{URIQUERY}?(?:#[^\s"]*)?
"##;
