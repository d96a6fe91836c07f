//! Why the bytes of a line ask nothing.
ghost use Rattle.std.specs.Prelude.{◌≡◌, [], nat_eq};
ghost use Rattle.std.specs.Cmp.{partial_equiv_from_equiv};
ghost use Rattle.std.specs.Cmp.Lexicographic.{pointwise, lists_equiv, nat_list_eq_equiv};

use gd_base::memory::Memory;
use gd_json::from::JsonFault;
use gd_json::value::JsonText;
use std::alloc::Global;
use std::error::Error;
use std::fmt;
use std::marker::Model;

/// What is wrong with a query or a write: first with its form, and then with what its words stand
/// for.
#[derive(Clone, Copy, Debug, PartialEq, Eq)]
pub enum Code {
    /// The envelope of a request has other members than it should, or a member of another form.
    Envelope,
    /// A list is neither empty nor of one object.
    ListForm,
    /// A name is no name, or its word may not stand there.
    BadWord,
    /// The word is one of those that this profile leaves out.
    LeftOut,
    /// A directive has another value than it may have, or may not stand there.
    BadDirective,
    /// A literal or an operand has not the form that its name asks.
    BadOperand,
    /// A member of a write has not the form of one.
    BadWrite,
    /// `create` has not the form of one.
    BadCreate,
    /// `connect` has not the form of one, or the links of its property can't be changed so.
    BadConnect,
    /// A literal or an operand is no value of what is asked.
    BadValue,
    /// The operator does not stand on answers of this kind.
    BadOperator,
    /// A property that holds values is asked for backwards.
    ValueReversed,
    /// A form on a value or a key has a member that may not stand there.
    ObjectForm,
    /// Rows can't be sorted by this word.
    BadSort,
    /// A fact of an existing object does not hold.
    NotMet,
    /// No link of this object, property and language stands there.
    BadPrevious,
    /// The object that a language names is none.
    BadLang,
}

impl Code {
    /// What is wrong, in words.
    fn message(self) -> &'static str {
        match self {
            Code::Envelope => "the envelope of the request is not one",
            Code::ListForm => "the list has not the form of one",
            Code::BadWord => "the name is none",
            Code::LeftOut => "the word is left out",
            Code::BadDirective => "the directive has not the form of one",
            Code::BadOperand => "the operand has not the form that its name asks",
            Code::BadWrite => "the member of the write has not the form of one",
            Code::BadCreate => "the create has not the form of one",
            Code::BadConnect => "the links can not be connected so",
            Code::BadValue => "the operand is no value of what is asked",
            Code::BadOperator => "the operator does not stand on answers of this kind",
            Code::ValueReversed => "a property of values is asked for backwards",
            Code::ObjectForm => "the member may not stand in a form on a value",
            Code::BadSort => "rows can not be sorted by this word",
            Code::NotMet => "the object does not have this value",
            Code::BadPrevious => "no link of this object, property and language stands there",
            Code::BadLang => "the object is no language",
        }
    }
}

impl fmt::Display for Code {
    fn fmt<W: fmt::Write>(&self, f: &mut fmt::Formatter<W>) -> fmt::Result {
        write!(f, "{}", self.message())
    }
}

impl Error for Code {}

/// The names of members that lead from the root of a query down to a place in it. Contracts see the
/// list of these names, each as the list of its bytes.
#[derive(Debug, Drop)]
pub struct Path {
    names: Vec<JsonText>,
}

impl Model for Path {
    ghost use Rattle.std.specs.Prelude.{ℕ, List};

    ghost Value = { List (List ℕ) };

    ghost view = { λ path. path.names.items };
}

impl PartialEq for Path {
    ghost eq = { λ a b. pointwise (pointwise nat_eq) a b };

    ghost laws = { partial_equiv_from_equiv (lists_equiv nat_list_eq_equiv) };

    fn eq(&self, other: &Path) -> bool {
        self.names == other.names
    }
}

impl Eq for Path {
    ghost laws = { lists_equiv nat_list_eq_equiv };
}

impl From<Vec<JsonText>> for Path {
    ghost from_gives = { λ names path. path ≡ names.items };

    /// The path of these names from the root down. It takes no memory.
    fn from(names: Vec<JsonText>) -> Path {
        Path { names }
    }
}

impl Path {
    /// The path of the root. It takes no memory.
    pub fn root(alloc: Global) -> Path
        ensures { result ≡ [] }
    {
        Path {
            names: Vec::new(alloc),
        }
    }

    /// The names from the root down.
    pub fn names(&self) -> &[JsonText]
        ensures { result.now ≡ self.now }
    {
        self.names.as_slice()
    }
}

/// Why the bytes of a line ask nothing.
#[derive(Debug, PartialEq, Eq, Drop, thiserror::Error)]
pub enum LineFault {
    /// They are no JSON of this profile.
    #[error("the line is no JSON of this profile: {0:?}")]
    Json(JsonFault),
    /// They are no object of just `sid`, a number from 0 to 63, and one of `read` and `write`.
    #[error("the line is no object of a session and one request")]
    BadLine,
    /// The query has not the form that it should, at this place.
    #[error("the query is refused at {path:?}: {code}")]
    BadQuery { code: Code, path: Path },
    /// An allocation was refused.
    #[error("out of memory")]
    Memory,
}

impl From<JsonFault> for LineFault {
    ghost use Rattle.gd_fault.specs.Fault.{fault_of};

    ghost from_gives = { λ given fault. fault ≡ fault_of given };

    fn from(fault: JsonFault) -> LineFault {
        match fault {
            JsonFault::Memory => LineFault::Memory,
            fault => LineFault::Json(fault),
        }
    }
}

impl From<Memory> for LineFault {
    ghost use Rattle.gd_fault.specs.declared.fault.LineFault.TheVariants.{Memory as no_memory};

    ghost from_gives = { λ _ fault. fault ≡ no_memory };

    fn from(_refused: Memory) -> LineFault {
        LineFault::Memory
    }
}
