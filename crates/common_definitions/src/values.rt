//! Numbers, words, quoted texts, paths and levels.

pub const VALUES: &str = r##"
# Numbers. INT, NUMBER and BASE10NUM are decimal, BASE16NUM and BASE16FLOAT hexadecimal (as C's %x and %a print them).
INT=[+-]?[0-9]+
NONNEGINT=[0-9]+
POSINT=[1-9][0-9]*
BASE10NUM=[+-]?(?:[0-9]+(?:\.[0-9]+)?|\.[0-9]+)(?:[eE][+-]?[0-9]+)?
NUMBER=%{BASE10NUM}
BASE16NUM=[+-]?(?:0[xX])?[0-9A-Fa-f]+
BASE16FLOAT=[+-]?(?:0[xX])?(?:[0-9A-Fa-f]+(?:\.[0-9A-Fa-f]+)?|\.[0-9A-Fa-f]+)(?:[pP][+-]?[0-9]+)?

# Words of any script, and texts of any kind. DATA takes as little as it can, GREEDYDATA as much as it can.
WORD=\w+
NOTSPACE=\S+
DATA=.*?
GREEDYDATA=.*

# Texts in quotes, in which a backslash protects the next character. INQUOTES is the text without its double quotes.
INQUOTES=(?:[^"\\]|\\.)*
DOUBLEQUOTED="%{INQUOTES}"
SINGLEQUOTED='(?:[^'\\]|\\.)*'
QUOTEDSTRING=(?:%{DOUBLEQUOTED}|%{SINGLEQUOTED})
QS=%{QUOTEDSTRING}

# A value between commas, which may be in double quotes (RFC 4180).
CSVVALUE=(?:"(?:[^"]|"")*"|[^,"]*)

# A JSON object (RFC 8259) up to the last brace of the line.
JSONOBJECT=\{.*\}

# Identifiers: UUIDs (RFC 9562), URNs (RFC 8141).
UUID=\b[0-9A-Fa-f]{8}-(?:[0-9A-Fa-f]{4}-){3}[0-9A-Fa-f]{12}\b
URN=\b(?i:urn):[0-9A-Za-z][0-9A-Za-z-]{0,30}[0-9A-Za-z]:(?:[0-9A-Za-z()+,.:=@;$_!*\'/?#&~-]|%[0-9A-Fa-f]{2})+

# Paths of Unix (POSIX.1-2017, 3.271) and of Windows ("Naming Files, Paths, and Namespaces"), and terminals of Linux.
UNIXPATH=/[^\s"]*
WINWORD=[^\s"\\/:*?<>|]+
WINFOLDER=%{WINWORD}(?: +%{WINWORD})*\\+
WINPATH=(?:[A-Za-z]:|\\)\\+%{WINFOLDER}*(?:%{WINWORD}(?: +%{WINWORD})*?)?
PATH=(?:%{UNIXPATH}|%{WINPATH})
TTY=/dev/(?:pts/[0-9]+|tty[0-9A-Za-z]*|console)\b

# Levels of syslog (RFC 5424, 6.2.1), Apache's LogLevel, log4j, Python and .NET in any case. Those of java.util.logging, of
# PostgreSQL and of loguru that are also plain words are taken in capitals alone.
LOGLEVELWORD=(?i:trace[1-8]?|verbose|debug[1-5]?|info(?:rmation)?|notice|warn(?:ing)?|err(?:or)?|crit(?:ical)?|alert|emerg(?:ency)?|fatal|severe|panic)
LOGLEVEL=\b(?:%{LOGLEVELWORD}|FINE(?:R|ST)?|CONFIG|LOG|SUCCESS)\b
"##;
