//! Sets of characters by their names, and how `regex` spells them inside a class.

/// A set of characters that has a name in Oniguruma's syntax.
#[derive(Clone, Copy)]
pub(crate) struct NamedSet {
    /// The name, in lower case.
    pub name: &'static str,
    /// The items of a class whose characters are those of the set.
    pub items: &'static str,
    /// Whether each of its characters is one of `\w`.
    pub is_of_words: bool,
}

/// The sets whose names stand between `[:` and `:]`, and in `\p{..}`.
pub(crate) const SETS: [NamedSet; 14] = [
    NamedSet {
        name: "alnum",
        items: r"\p{Alphabetic}\p{Nd}",
        is_of_words: true,
    },
    NamedSet {
        name: "alpha",
        items: r"\p{Alphabetic}",
        is_of_words: true,
    },
    NamedSet {
        name: "ascii",
        items: r"\x00-\x7F",
        is_of_words: false,
    },
    NamedSet {
        name: "blank",
        items: r"\p{Zs}\x09",
        is_of_words: false,
    },
    NamedSet {
        name: "cntrl",
        items: r"\p{Cc}",
        is_of_words: false,
    },
    NamedSet {
        name: "digit",
        items: r"\p{Nd}",
        is_of_words: true,
    },
    NamedSet {
        name: "graph",
        items: r"[\P{White_Space}&&\P{Cc}&&\P{Cn}]",
        is_of_words: false,
    },
    NamedSet {
        name: "lower",
        items: r"\p{Lowercase}",
        is_of_words: true,
    },
    NamedSet {
        name: "print",
        items: r"[\P{White_Space}&&\P{Cc}&&\P{Cn}]\p{Zs}",
        is_of_words: false,
    },
    NamedSet {
        name: "punct",
        items: r"\p{P}",
        is_of_words: false,
    },
    NamedSet {
        name: "space",
        items: r"\p{White_Space}",
        is_of_words: false,
    },
    NamedSet {
        name: "upper",
        items: r"\p{Uppercase}",
        is_of_words: true,
    },
    NamedSet {
        name: "xdigit",
        items: "0-9A-Fa-f",
        is_of_words: true,
    },
    NamedSet {
        name: "word",
        items: r"\w",
        is_of_words: true,
    },
];

/// The properties of Unicode that both engines call by these names: the general categories, and those
/// that the items of `SETS` have.
const PROPERTIES: [&str; 40] = [
    "L",
    "Lu",
    "Ll",
    "Lt",
    "Lm",
    "Lo",
    "M",
    "Mn",
    "Mc",
    "Me",
    "N",
    "Nd",
    "Nl",
    "No",
    "P",
    "Pc",
    "Pd",
    "Ps",
    "Pe",
    "Pi",
    "Pf",
    "Po",
    "S",
    "Sm",
    "Sc",
    "Sk",
    "So",
    "Z",
    "Zs",
    "Zl",
    "Zp",
    "C",
    "Cc",
    "Cf",
    "Cn",
    "Co",
    "Alphabetic",
    "Lowercase",
    "Uppercase",
    "White_Space",
];

/// Returns the set with this name, in upper or lower case, or `None` if there is none.
pub(crate) fn named_set(name: &str) -> Option<NamedSet> {
    for set in SETS {
        if name.as_bytes().eq_ignore_ascii_case(set.name.as_bytes()) {
            return Some(set);
        }
    }
    None
}

/// Returns whether both engines call a property by this name.
pub(crate) fn is_property(name: &str) -> bool {
    PROPERTIES.iter().any(|property| *property == name)
}
