//! How the tokens of a text belong together: which bracket closes which, and what a quantifier
//! repeats.
ghost use Rattle.std.specs.Prelude.{◌≡◌};
ghost use Rattle.oniguruma_syntax.specs.Links.{links_of_one, links_at};

use crate::refusal::{Reason, Stop};
use crate::token::{Form, Mark, Node, Token};
use std::alloc::{AllocError, Global};

/// How a token is linked to others.
#[derive(Clone, Copy)]
pub(crate) struct Links {
    /// For a token that begins a group or a class, the index of the token that closes it.
    pub close: usize,
    /// How many quantifiers repeat what begins at the token.
    pub repeats: usize,
    /// For a quantifier, whether another one follows, which repeats what this one repeats.
    pub is_repeated: bool,
    /// For a token that begins a group, whether what is inside the group can match in one way only, wherever
    /// it matches. Then an atomic group is the same as a plain one.
    pub is_fixed: bool,
}

/// How the tokens of a text belong together.
#[derive(Drop)]
pub(crate) struct Structure {
    /// The links of each token, in the order of the tokens.
    pub links: Vec<Links>,
    /// Whether the text has alternatives outside all groups.
    pub has_alternatives: bool,
}

impl Links {
    fn of_one(index: usize) -> Links
        ensures { result ≡ links_of_one index }
    {
        Links {
            close: index,
            repeats: 0,
            is_repeated: false,
            is_fixed: false,
        }
    }
}

impl Structure {
    pub fn links_of(&self, index: usize) -> Links
        ensures { result ≡ links_at self.now.links.items index }
    {
        match self.links.as_slice().get(index) {
            Some(links) => *links,
            None => Links::of_one(index),
        }
    }
}

/// Returns whether a token by itself lets the text around it match in several ways.
fn is_choice(node: &Node<'_>) -> bool {
    match node.token {
        Token::Quantifier(_, _) | Token::Placeholder(_) | Token::Symbol('|') => true,
        Token::Interval(counts, _) => counts.contains(','),
        _ => false,
    }
}

/// Finds out how tokens belong together, from left to right.
#[derive(Drop)]
struct Linker {
    structure: Structure,
    /// The tokens whose groups and classes aren't closed yet, outermost first.
    open: Vec<usize>,
    /// How many classes are open.
    classes: usize,
    /// The token at which the part begins that a quantifier would repeat.
    atom: Option<usize>,
    /// The last quantifier of that part, if it has one.
    quantifier: Option<usize>,
    /// The last token that lets the text around it match in several ways.
    choice: Option<usize>,
}

impl Linker {
    fn new(alloc: Global) -> Linker {
        Linker {
            structure: Structure {
                links: Vec::new(alloc),
                has_alternatives: false,
            },
            open: Vec::new(alloc),
            classes: 0,
            atom: None,
            quantifier: None,
            choice: None,
        }
    }

    /// Notes which part a quantifier would repeat from here on, if there is one.
    fn set_atom(&mut self, atom: Option<usize>) {
        self.atom = atom;
        self.quantifier = None;
    }

    fn begin(&mut self, index: usize) -> Result<(), AllocError> {
        self.open.push(index)?;
        self.set_atom(None);
        Ok(())
    }

    /// Ends the innermost group or class at the token with this index. Returns `false` if none is
    /// open.
    fn end(&mut self, index: usize) -> bool {
        let Some(start) = self.open.pop() else {
            return false;
        };
        let is_fixed = match self.choice {
            Some(choice) => choice < start,
            None => true,
        };
        if let Some(links) = self.structure.links.as_mut_slice().get_mut(start) {
            links.close = index;
            links.is_fixed = is_fixed;
        }
        self.set_atom(Some(start));
        true
    }

    /// Counts a quantifier that repeats what is before it. Returns `false` if there is nothing to repeat.
    fn repeat(&mut self, index: usize) -> bool {
        let Some(atom) = self.atom else {
            return false;
        };
        if let Some(links) = self.structure.links.as_mut_slice().get_mut(atom) {
            links.repeats = links.repeats.saturating_add(1);
        }
        if let Some(before) = self.quantifier
            && let Some(links) = self.structure.links.as_mut_slice().get_mut(before)
        {
            links.is_repeated = true;
        }
        self.quantifier = Some(index);
        true
    }

    fn link_member(&mut self, index: usize, mark: Mark) -> Result<(), AllocError> {
        match mark {
            Mark::Open | Mark::NotOpen => {
                self.classes = self.classes.saturating_add(1);
                self.begin(index)
            }
            Mark::Close => {
                self.classes = self.classes.saturating_sub(1);
                self.end(index);
                Ok(())
            }
            Mark::And => Ok(()),
        }
    }

    fn link_plain(&mut self, index: usize, node: &Node<'_>) -> Result<(), Stop> {
        match node.token {
            Token::Open(_, _) | Token::Enclosed(Form::Name, _, _, _) | Token::Flags(_, ":") => {
                self.begin(index)?;
            }
            Token::Symbol(')') => {
                if !self.end(index) {
                    return Err(Stop::at(Reason::Unopened, node));
                }
            }
            Token::Symbol('|') => {
                self.structure.has_alternatives |= self.open.is_empty();
                self.set_atom(None);
            }
            Token::Quantifier(_, _) | Token::Interval(_, _) => {
                if !self.repeat(index) {
                    return Err(Stop::at(Reason::NothingToRepeat, node));
                }
            }
            _ if node.is_blank() => {}
            Token::Flags(_, _) | Token::Symbol('^' | '$') => self.set_atom(None),
            Token::Escape('A' | 'z' | 'Z' | 'b' | 'B') | Token::Edge(_) => self.set_atom(None),
            _ => self.set_atom(Some(index)),
        }
        Ok(())
    }

    fn link(&mut self, index: usize, node: &Node<'_>) -> Result<(), Stop> {
        self.structure.links.push(Links::of_one(index))?;
        if is_choice(node) {
            self.choice = Some(index);
        }
        match node.token {
            Token::Class(mark, _) => Ok(self.link_member(index, mark)?),
            _ if self.classes > 0 => Ok(()),
            _ => self.link_plain(index, node),
        }
    }
}

/// Finds out how the tokens of a text belong together.
///
/// # Errors
///
/// Returns an error if a bracket has no partner, if a quantifier has nothing to repeat, or if an
/// allocation fails.
pub(crate) fn find_structure(alloc: Global, nodes: &[Node<'_>]) -> Result<Structure, Stop> {
    let mut linker = Linker::new(alloc);
    for (index, node) in nodes.iter().enumerate() {
        linker.link(index, node)?;
    }
    if let Some(start) = linker.open.as_slice().last()
        && let Some(node) = nodes.get(*start)
    {
        return Err(Stop::at(Reason::Unclosed, node));
    }
    Ok(linker.structure)
}
