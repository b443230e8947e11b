//! The messages of OpenSSH's server.

pub const SSHD: &str = r##"
# The messages of sshd about its clients, as OpenSSH writes them (auth.c, packet.c, session.c) and rsyslog repeats them. SSHD
# is the message up to the end of the line, and SSHDLINE the line of syslog. `unknown` is `invalid` for a user that doesn't
# exist, `state` is `invalid` or `authenticating`, and `refused` is a user that isn't allowed. A client chooses the name of
# its user, so the name is taken greedily, and the last address of the line is that of the client. SSHDNAME is any text that
# doesn't end in ` from`, which comes after a name in some messages.
SSHDRESULT=(?:Accepted|Failed|Partial|Postponed)
SSHDENDED=(?:Connection (?:closed|reset) by|Connection|Disconnected|Disconnecting|Received disconnect|Timeout before authentication)
SSHDREFUSED=(?:Did not receive identification string|Unable to negotiate|banner exchange: Connection|maximum authentication attempts exceeded|Invalid)
SSHDSESSION=(?:Starting session: [a-z-]+(?: \([a-z-]+\))?(?: '[^']*')?(?: on [^ ]+)?|Close session:)
SSHDEVENT=(?:%{SSHDRESULT}|%{SSHDENDED}|%{SSHDREFUSED}|%{SSHDSESSION})
SSHDUNKNOWN=invalid
SSHDSTATE=(?:invalid|authenticating)
SSHDNAME=(?:.*(?:[^m]|[^o]m|[^r]om|[^f]rom|[^ ]from)|.{0,3}|from)
SSHDUSER=(?:(?: %{NOTSPACE:method})? for(?: %{SSHDUNKNOWN:unknown} user)?|(?: from)?(?: %{SSHDSTATE:state})? user) %{SSHDNAME:user}
SSHDPEER=(?:(?:from|with|for) )*%{IP:client}(?: port %{PORT:port:int})?
SSHDSERVER=on %{NOTSPACE:server} port %{PORT:server_port:int}(?: rdomain .*)?
SSHDREST=(?: %{SSHDSERVER})?(?: ssh2)?(?: id [0-9]+)?(?::%{NONNEGINT:code:int})?(?:(?::| not allowed because) %{DATA:details})?(?: \[preauth\])?
SSHDREPEATED=message repeated %{NONNEGINT:repeated:int} times: \[ ?
SSHD=%{SSHDREPEATED}?(?:error: )?(?:%{SSHDEVENT:event}%{SSHDUSER}?|User %{SSHDNAME:refused}) %{SSHDPEER}%{SSHDREST} ?\]?$
SSHDLINE=%{SYSLOGBASE} %{SSHD}
"##;
