//! The lines that a number and a count stand for.
ghost use Rattle.std.specs.Prelude.{◌≡◌, ◌<◌, ◌≤◌, ◌+◌, ◌-◌, ◌%◌, ◌++◌, [], ◌∷◌, codes, OnOk, IfOk};
ghost use Rattle.gd_gen.specs.Draws.{draw, following};
ghost use Rattle.gd_gen.specs.Lines as lines;

use crate::draws::Draws;
use gd_base::id::Id;
use gd_base::memory::Memory;
use gd_fault::guid::guid;
use std::alloc::Global;

/// The most nodes that may be asked for.
pub const MAX_COUNT: u32 = 200_000;

/// How many names nodes have, and how many sessions read.
const NAMES: u32 = 10;

/// The query that creates the type of nodes.
const TYPE_QUERY: &[u8] = b"{\"create\":\"unconditional\",\
    \"key\":{\"namespace\":\"/\",\"value\":\"g\"},\"type\":\"/type/type\"}";

/// The query that creates the property by which a node leads to another.
const PROPERTY_QUERY: &[u8] = b"{\"create\":\"unconditional\",\"expected_type\":\"/g\",\
    \"key\":{\"namespace\":\"/g\",\"value\":\"next\"},\"type\":\"/type/property\"}";

/// A digit as a byte.
fn digit(n: u32) -> u8
    requires { n < 10 }
    ensures { result ≡ lines.digit n }
{
    b'0' + n as u8
}

/// The place of a node, the first being node 1.
fn node_place(node: u32) -> Id
    requires { node ≤ MAX_COUNT }
    ensures { result ≡ lines.node_place node }
{
    Id::new(if node == 1 { 77 } else { 72 + 4 * node })
}

/// The text of a query in parts: `front` up to the n of a name, the digit of that name, `members`
/// behind the name, and `back`.
fn named_query(
    alloc: Global,
    front: &[u8],
    name: u32,
    members: &[u8],
    back: &[u8],
) -> Result<Vec<u8>, Memory>
    requires { name < 10 }
    ensures { IfOk result (λ query. query.items
        ≡ lines.named_query front.now name members.now back.now) }
{
    let mut query = Vec::from_slice(alloc, front)?;
    query.push(digit(name))?;
    query.extend_from_slice(b"\",")?;
    query.extend_from_slice(members)?;
    query.extend_from_slice(back)?;
    Ok(query)
}

/// The query that creates a node of a name, with these members behind its name.
#[tactic(auto, unfolding(crate::specs::Lines::node_query))]
fn node_query(alloc: Global, name: u32, members: &[u8]) -> Result<Vec<u8>, Memory>
    requires { name < 10 }
    ensures { IfOk result (λ query. query.items ≡ lines.node_query name members.now) }
{
    named_query(
        alloc,
        b"{\"create\":\"unconditional\",\"name\":\"n",
        name,
        members,
        b"\"type\":\"/g\"}",
    )
}

/// The query that counts the nodes of a name, with these members behind its name.
#[tactic(auto, unfolding(crate::specs::Lines::count_query))]
fn count_query(alloc: Global, name: u32, members: &[u8]) -> Result<Vec<u8>, Memory>
    requires { name < 10 }
    ensures { IfOk result (λ query. query.items ≡ lines.count_query name members.now) }
{
    named_query(
        alloc,
        b"[{\"limit\":1000,\"name\":\"n",
        name,
        members,
        b"\"return\":\"count\",\"type\":\"/g\"}]",
    )
}

/// The member by which a node leads to this one.
#[tactic(auto, unfolding(crate::specs::Lines::next_member))]
fn next_member(alloc: Global, node: u32) -> Result<Vec<u8>, Memory>
    requires { node ≤ MAX_COUNT }
    ensures { IfOk result (λ member. member.items ≡ lines.next_member node) }
{
    let guid = guid(alloc, node_place(node))?;
    let mut member = Vec::from_slice(alloc, b"\"next\":{\"id\":\"")?;
    member.extend_from_slice(guid.as_str().as_bytes())?;
    member.extend_from_slice(b"\"},")?;
    Ok(member)
}

/// Appends three parts, one behind the other.
fn push_parts(bytes: &mut Vec<u8>, front: &[u8], middle: &[u8], back: &[u8]) -> Result<(), Memory>
    ensures { OnOk result (bytes.new.items
        ≡ bytes.old.items ++ (front.now ++ middle.now ++ back.now)) }
{
    bytes.extend_from_slice(front)?;
    bytes.extend_from_slice(middle)?;
    bytes.extend_from_slice(back)?;
    Ok(())
}

/// Appends the line in which session 0 writes by a query.
#[tactic(auto, unfolding(crate::specs::Lines::write_line))]
fn push_write(bytes: &mut Vec<u8>, query: &[u8]) -> Result<(), Memory>
    ensures { OnOk result (bytes.new.items ≡ bytes.old.items ++ lines.write_line query.now) }
{
    push_parts(bytes, b"{\"sid\":0,\"write\":{\"query\":", query, b"}}\n")?;
    Ok(())
}

/// What stands before the query in the line in which a session reads.
#[tactic(auto, unfolding(crate::specs::Lines::read_front))]
fn read_front(alloc: Global, session: u32) -> Result<Vec<u8>, Memory>
    requires { session < 10 }
    ensures { IfOk result (λ front. front.items ≡ lines.read_front session) }
{
    let mut front = Vec::from_slice(alloc, b"{\"sid\":")?;
    front.push(digit(session))?;
    front.extend_from_slice(b",\"read\":{\"query\":")?;
    Ok(front)
}

/// Appends the line in which a session reads by a query.
fn push_read(alloc: Global, bytes: &mut Vec<u8>, session: u32, query: &[u8]) -> Result<(), Memory>
    requires { session < 10 }
    ensures { OnOk result (bytes.new.items
        ≡ bytes.old.items ++ lines.read_line session query.now) }
{
    let front = read_front(alloc, session)?;
    push_parts(bytes, &front, query, b"}}\n")?;
    Ok(())
}

/// Appends the lines that make the type of nodes and its property.
#[tactic(auto, unfolding(crate::specs::Lines::type_query, crate::specs::Lines::property_query))]
fn push_schema(bytes: &mut Vec<u8>) -> Result<(), Memory>
    ensures { OnOk result (bytes.new.items ≡ bytes.old.items ++ lines.schema_lines) }
{
    push_write(bytes, TYPE_QUERY)?;
    push_write(bytes, PROPERTY_QUERY)?;
    Ok(())
}

/// Appends the line of node 1, with the name that the next draw gives.
fn push_first_node(alloc: Global, bytes: &mut Vec<u8>, draws: &mut Draws) -> Result<(), Memory>
    ensures line { OnOk result (bytes.new.items
        ≡ bytes.old.items ++ lines.first_node draws.old) }
    ensures later { OnOk result (draws.new ≡ following draws.old) }
{
    let name = draws.below(NAMES);
    let query = node_query(alloc, name, b"")?;
    push_write(bytes, &query)?;
    Ok(())
}

/// Appends the line of a node from node 2 on, with the name and the node to which it leads that the
/// next two draws give.
#[tactic(auto, unfolding(crate::specs::Lines::later_node))]
fn push_later_node(
    alloc: Global,
    bytes: &mut Vec<u8>,
    node: u32,
    draws: &mut Draws,
) -> Result<(), Memory>
    requires above { 1 < node }
    requires within { node ≤ MAX_COUNT }
    ensures line { OnOk result (bytes.new.items
        ≡ bytes.old.items ++ lines.later_node node draws.old) }
    ensures later { OnOk result (draws.new ≡ following (following draws.old)) }
{
    let name = draws.below(NAMES);
    let next = 1 + draws.below(node - 1);
    let member = next_member(alloc, next)?;
    let query = node_query(alloc, name, &member)?;
    push_write(bytes, &query)?;
    Ok(())
}

/// Appends the lines of the nodes from node 2 to the last one, by the next draws.
fn push_later_nodes(
    alloc: Global,
    bytes: &mut Vec<u8>,
    count: u32,
    draws: &mut Draws,
) -> Result<(), Memory>
    requires { count ≤ MAX_COUNT }
    ensures { OnOk result (bytes.new.items
        ≡ bytes.old.items ++ lines.later_nodes (count - 1) 2 draws.old) }
{
    for node in 2..count + 1 {
        push_later_node(alloc, bytes, node, draws)?;
    }
    Ok(())
}

/// Appends the lines of nodes, by the draws behind a number.
fn push_nodes(alloc: Global, bytes: &mut Vec<u8>, number: u32, count: u32) -> Result<(), Memory>
    requires some { 0 < count }
    requires within { count ≤ MAX_COUNT }
    ensures { OnOk result (bytes.new.items ≡ bytes.old.items ++ lines.nodes count number) }
{
    let mut draws = Draws::new(number);
    push_first_node(alloc, bytes, &mut draws)?;
    push_later_nodes(alloc, bytes, count, &mut draws)?;
    Ok(())
}

/// Appends the line in which a session counts the nodes of the name of its number, with these
/// members behind the name.
fn push_count(
    alloc: Global,
    bytes: &mut Vec<u8>,
    session: u32,
    members: &[u8],
) -> Result<(), Memory>
    requires { session < 10 }
    ensures { OnOk result (bytes.new.items
        ≡ bytes.old.items ++ lines.count_line session members.now) }
{
    let query = count_query(alloc, session, members)?;
    push_read(alloc, bytes, session, &query)?;
    Ok(())
}

/// Appends the lines in which each session counts the nodes of the name of its number, with these
/// members behind the name.
fn push_reads(alloc: Global, bytes: &mut Vec<u8>, members: &[u8]) -> Result<(), Memory>
    ensures { OnOk result (bytes.new.items ≡ bytes.old.items ++ lines.read_lines members.now 10 0) }
{
    for session in 0..NAMES {
        push_count(alloc, bytes, session, members)?;
    }
    Ok(())
}

/// Appends the lines of the reads: first of all nodes of each name, then of those that lead to a
/// node of the name n0.
#[tactic(auto, unfolding(crate::specs::Lines::linked_member))]
fn push_all_reads(alloc: Global, bytes: &mut Vec<u8>) -> Result<(), Memory>
    ensures { OnOk result (bytes.new.items ≡ bytes.old.items ++ lines.all_reads) }
{
    push_reads(alloc, bytes, b"")?;
    push_reads(alloc, bytes, b"\"next\":{\"name\":\"n0\"},")?;
    Ok(())
}

/// The lines that a number and a count of nodes stand for, each with its newline: two writes of
/// session 0 that make a type and a property, a write for each node, by the draws behind the
/// number, a blank line, and twice ten reads of ten sessions. `Memory`: an allocation was refused.
#[tactic(auto, unfolding(crate::specs::Lines::lines_of))]
pub fn lines_of(alloc: Global, number: u32, count: u32) -> Result<Vec<u8>, Memory>
    requires some { 0 < count }
    requires within { count ≤ MAX_COUNT }
    ensures { IfOk result (λ bytes. bytes.items ≡ lines.lines_of number count) }
{
    let mut bytes = Vec::new(alloc);
    push_schema(&mut bytes)?;
    push_nodes(alloc, &mut bytes, number, count)?;
    bytes.push(b'\n')?;
    push_all_reads(alloc, &mut bytes)?;
    Ok(bytes)
}
