//! What a command line can ask for.
ghost use Rattle.std.specs.Prelude.{◌≡◌, ◌≤◌, option_map};
ghost use Rattle.gd_words.specs.Verbs.{file_of};

use gd_base::text::Text;
use std::marker::Model;

/// The most nodes that may be asked for.
pub const MOST_NODES: u32 = 200_000;

/// The most replies that a session may keep.
pub const MOST_REPLIES: u32 = 64;

/// Serve lines and rounds.
#[derive(Debug, PartialEq, Eq, Drop)]
pub struct Serve {
    /// The path of the file that keeps the store, of 1 to 4,096 bytes. None: it is kept in memory.
    pub file: Option<Text>,
    /// How many threads read, 1 to 16.
    pub workers: u32,
    /// How many steps a slice of a read may take, 1 to 1,000,000.
    pub budget: u32,
    /// How many replies each session keeps. None: they are not kept.
    pub cache: Option<ReplyCount>,
}

/// Where a verb finds its store, which is all that it asks for.
#[derive(Debug, PartialEq, Eq, Drop)]
pub struct Place {
    /// The path of the file that keeps the store, of 1 to 4,096 bytes. None: it is kept in memory.
    pub file: Option<Text>,
}

/// Write the batches of a store as a text.
#[derive(Debug, PartialEq, Eq, Drop)]
pub struct Dump {
    /// The path of the file that keeps the store, of 1 to 4,096 bytes. None: it is kept in memory.
    pub file: Option<Text>,
    /// The number of the first batch that is written, 0 to 4,194,303.
    pub from: u32,
}

/// A number of replies that a session keeps, 1 to `MOST_REPLIES`. Contracts see the number.
#[derive(Clone, Copy, Debug, PartialEq, Eq)]
pub struct ReplyCount {
    replies: u32,
}

impl Model for ReplyCount {
    ghost use Rattle.std.specs.Prelude.{ℕ, ◌≤◌};

    ghost Value = { ℕ };

    ghost view = { λ count. count.replies };

    ghost inverse = { λ replies. record { replies = replies } };

    ghost invariant = { λ count. (1 ≤ count.replies) × (count.replies ≤ 64) };
}

impl ReplyCount {
    /// So many replies.
    pub fn new(replies: u32) -> ReplyCount
        requires some { 1 ≤ replies }
        requires within { replies ≤ MOST_REPLIES }
        ensures { result ≡ replies }
    {
        ReplyCount { replies }
    }

    /// How many replies these are.
    pub fn replies(self) -> u32
        ensures replies { result ≡ self }
        ensures some { 1 ≤ result }
        ensures within { result ≤ MOST_REPLIES }
    {
        self.replies
    }
}

/// A number of nodes, 1 to `MOST_NODES`. Contracts see the number.
#[derive(Clone, Copy, Debug, PartialEq, Eq)]
pub struct NodeCount {
    nodes: u32,
}

impl Model for NodeCount {
    ghost use Rattle.std.specs.Prelude.{ℕ, ◌≤◌};

    ghost Value = { ℕ };

    ghost view = { λ count. count.nodes };

    ghost inverse = { λ nodes. record { nodes = nodes } };

    ghost invariant = { λ count. (1 ≤ count.nodes) × (count.nodes ≤ 200_000) };
}

impl NodeCount {
    /// So many nodes.
    pub fn new(nodes: u32) -> NodeCount
        requires some { 1 ≤ nodes }
        requires within { nodes ≤ MOST_NODES }
        ensures { result ≡ nodes }
    {
        NodeCount { nodes }
    }

    /// How many nodes these are.
    pub fn nodes(self) -> u32
        ensures nodes { result ≡ self }
        ensures some { 1 ≤ result }
        ensures within { result ≤ MOST_NODES }
    {
        self.nodes
    }
}

/// Generate requests, and tell what the replies to them come to.
#[derive(Debug, PartialEq, Eq, Drop)]
pub struct Generate {
    /// The number from which names and links are drawn.
    pub number: u32,
    /// How many nodes are made.
    pub count: NodeCount,
}

/// A verb with its options.
#[derive(Debug, PartialEq, Eq, Drop)]
pub enum Command {
    Serve(Serve),
    /// Replay a run of events, on one thread.
    Replay(Place),
    Dump(Dump),
    /// Read a text of batches, and store them behind those of the store.
    Restore(Place),
    /// Run a node that follows another, on one thread.
    Follow(Place),
    /// Answer templates, a line each.
    Templates(Place),
    Generate(Generate),
}

impl Command {
    /// The path of the file that it names.
    pub fn file(&self) -> Option<&Text>
        ensures { option_map (λ t. t.now) result ≡ file_of self.now }
    {
        match self {
            Command::Serve(serve) => serve.file.as_ref(),
            Command::Replay(place) => place.file.as_ref(),
            Command::Dump(dump) => dump.file.as_ref(),
            Command::Restore(place) => place.file.as_ref(),
            Command::Follow(place) => place.file.as_ref(),
            Command::Templates(place) => place.file.as_ref(),
            Command::Generate(_) => None,
        }
    }
}
