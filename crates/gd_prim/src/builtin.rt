//! The primitives with which every store begins.
ghost use Rattle.std.specs.Prelude.{◌≡◌, ◌≤◌, ◌++◌, Some, OnOk, IfOk, map, length};
ghost use Rattle.std.specs.List.{AllPass};
ghost use Rattle.gd_prim.specs.Builtin as listed;
ghost use Rattle.gd_prim.specs.Tables.{key_row, name_row, short_key, short_name};

use crate::Primitive;
use gd_base::datum::Datum;
use gd_base::id::Id;
use gd_base::memory::Memory;
use gd_base::text::Text;
use std::alloc::Global;

const NAME: u32 = 13;

const TYPE: u32 = 14;

const KEY: u32 = 15;

const EXPECTED_TYPE: u32 = 16;

const UNIQUE: u32 = 17;

/// How many objects there are.
const OBJECTS: u32 = 19;

/// Each object with its key and the namespace of that.
const KEYS: [(u32, &str, u32); 18] = [
    (1, "type", 0),
    (2, "lang", 0),
    (3, "en", 2),
    (4, "object", 1),
    (5, "type", 1),
    (6, "property", 1),
    (7, "text", 1),
    (8, "int", 1),
    (9, "boolean", 1),
    (10, "datetime", 1),
    (11, "key", 1),
    (12, "namespace", 1),
    (13, "name", 4),
    (14, "type", 4),
    (15, "key", 4),
    (16, "expected_type", 6),
    (17, "unique", 6),
    (18, "master_property", 6),
];

/// Each object with its type.
const TYPES: [(u32, u32); 18] = [
    (0, 12),
    (1, 12),
    (2, 12),
    (4, 5),
    (5, 5),
    (6, 5),
    (7, 5),
    (8, 5),
    (9, 5),
    (10, 5),
    (11, 5),
    (12, 5),
    (13, 6),
    (14, 6),
    (15, 6),
    (16, 6),
    (17, 6),
    (18, 6),
];

/// Each property with its expected type.
const EXPECTED_TYPES: [(u32, u32); 6] = [(13, 7), (14, 5), (15, 11), (16, 5), (17, 9), (18, 6)];

/// The properties of which an object has one value at most.
const UNIQUE_PROPERTIES: [u32; 4] = [13, 16, 17, 18];

/// Each object with its name.
const NAMES: [(u32, &str); 5] = [
    (3, "English"),
    (0, "Root"),
    (1, "Type"),
    (5, "Type"),
    (6, "Property"),
];

/// A link of moment 0.
fn link(left: u32, right: Option<Id>, typ: u32, value: Datum) -> Primitive
    ensures { result ≡ listed.primitive (Some left) right (Some typ) value }
{
    Primitive::link(Id(left), right, Id(typ), value, 0)
}

fn push_objects(prims: &mut Vec<Primitive>) -> Result<(), Memory>
    ensures { OnOk result (prims.new.items ≡ prims.old.items ++ listed.objects) }
{
    for _place in 0..OBJECTS {
        prims.push(Primitive::object(0))?;
    }
    Ok(())
}

fn push_keys(
    alloc: Global,
    prims: &mut Vec<Primitive>,
    rows: &[(u32, &str, u32)],
) -> Result<(), Memory>
    requires { AllPass short_key rows.now }
    ensures { OnOk result (prims.new.items ≡ prims.old.items
        ++ map (λ row. listed.key_link (key_row row)) rows.now) }
{
    for row in rows {
        let key = Datum::Text(Text::of(alloc, row.1)?);
        prims.push(link(row.0, Some(Id(row.2)), KEY, key))?;
    }
    Ok(())
}

fn push_links(prims: &mut Vec<Primitive>, typ: u32, rows: &[(u32, u32)]) -> Result<(), Memory>
    ensures { OnOk result (prims.new.items ≡ prims.old.items ++ map (listed.link typ) rows.now) }
{
    for row in rows {
        prims.push(link(row.0, Some(Id(row.1)), typ, Datum::Empty))?;
    }
    Ok(())
}

fn push_unique_marks(prims: &mut Vec<Primitive>, rows: &[u32]) -> Result<(), Memory>
    ensures { OnOk result (prims.new.items ≡ prims.old.items ++ map listed.unique_mark rows.now) }
{
    for row in rows {
        prims.push(link(*row, None, UNIQUE, Datum::Bool(true)))?;
    }
    Ok(())
}

fn push_names(alloc: Global, prims: &mut Vec<Primitive>, rows: &[(u32, &str)]) -> Result<(), Memory>
    requires { AllPass short_name rows.now }
    ensures { OnOk result (prims.new.items ≡ prims.old.items
        ++ map (λ row. listed.name_link (name_row row)) rows.now) }
{
    for row in rows {
        let name = Datum::Text(Text::of(alloc, row.1)?);
        prims.push(link(row.0, None, NAME, name))?;
    }
    Ok(())
}

/// The built-in primitives, places 0 to 69: objects, their keys, their types, the expected types of
/// properties, the marks of unique properties, and names.
pub fn builtin(alloc: Global) -> Result<Vec<Primitive>, Memory>
    ensures listed { IfOk result (λ prims. prims.items ≡ listed.builtin) }
    ensures seventy { IfOk result (λ prims. length prims.items ≡ 70) }
{
    let mut prims = Vec::new(alloc);
    push_objects(&mut prims)?;
    push_keys(alloc, &mut prims, &KEYS)?;
    push_links(&mut prims, TYPE, &TYPES)?;
    push_links(&mut prims, EXPECTED_TYPE, &EXPECTED_TYPES)?;
    push_unique_marks(&mut prims, &UNIQUE_PROPERTIES)?;
    push_names(alloc, &mut prims, &NAMES)?;
    Ok(prims)
}
