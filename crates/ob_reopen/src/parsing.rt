//! What a row of a closing says.
ghost use Rattle.std.specs.Prelude.{◌≡◌, ◌≤◌, ◌<◌, ◌+◌, ◌-◌, ◌*◌, ◌^◌, [], ◌∷◌, ◌++◌, ℕ, List, Option, Some, IfSome, true, length};
ghost use Rattle.std.specs.Bool.{OnTrue, OnFalse};
ghost use Rattle.std.specs.Int.{to_be_bytes, w32, w64};
ghost use Rattle.std.specs.List.{All};
ghost use Rattle.ob_base.specs.Schemas.{Columns};
ghost use Rattle.ob_base.specs.declared.schema.Column.{Column as TableColumn};
ghost use Rattle.ob_base.specs.declared.schema.Kind.{Kind as ColumnKind};
ghost use Rattle.ob_base.specs.declared.schema.Shape.TheVariants.{Flat};
ghost use Rattle.ob_base.specs.Stored.{NamesTable};
ghost use Rattle.ob_reopen.specs.declared.listed.Listed.{Listed as Entry};
ghost use Rattle.ob_seal.specs.Sealed.{IsSalt};
ghost use Rattle.ob_reopen.specs.Spelling.{FitsColumn, FitsText, name_text, kind_text, column_text, columns_text, salt_text, table_text, head_text};
ghost use Rattle.ob_reopen.specs.Limits.{IsMarked, AreListed, GoesOn};

use crate::closing::Closing;
use crate::limits::goes_on;
use crate::listed::Listed;
use crate::spelling::{TEXT_LEN, put_head, put_table};
use ob_base::{Column, Heading, Kind, Name, Schema, Shape, Table};

// The number that these bytes spell, the highest first.
fn long_in(field: &[u8]) -> u64
    requires { length field.now ≡ 8 }
    ensures { (n : ℕ) → n < 2 ^ 64 → field.now ≡ to_be_bytes w64 n → result ≡ n }
{
    let mut bytes = [0; 8];
    bytes.copy_from_slice(field);
    u64::from_be_bytes(bytes)
}

fn int_in(field: &[u8]) -> u32
    requires { length field.now ≡ 4 }
    ensures { (n : ℕ) → n < 2 ^ 32 → field.now ≡ to_be_bytes w32 n → result ≡ n }
{
    let mut bytes = [0; 4];
    bytes.copy_from_slice(field);
    u32::from_be_bytes(bytes)
}

// The name after its length; what follows it isn't looked at.
fn name_in(field: &[u8]) -> Option<Name>
    requires { length field.now ≡ 33 }
    ensures { (name : List ℕ) → length name ≤ 32 → field.now ≡ name_text name
        → result ≡ Some name }
{
    let (len, rest) = field.split_at(1);
    let n = usize::from(len[0]);
    if n <= 32 {
        Some(Name::from_bytes(&rest[..n]))
    } else {
        None
    }
}

fn kind_in(kind: u8, n: u8) -> Kind
    ensures { (k : ColumnKind) → kind_text k ≡ kind ∷ n ∷ [] → result ≡ k }
{
    if kind == 0 {
        Kind::Int
    } else {
        Kind::Varchar(n)
    }
}

// The salt that these bytes spell, or none; other bytes than those of `put_salt` spell some, too.
fn salt_in(field: &[u8]) -> Option<[u8; 16]>
    requires { length field.now ≡ 17 }
    ensures long { IsSalt result }
    ensures told { (salt : Option (List ℕ)) → IsSalt salt → field.now ≡ salt_text salt
        → result ≡ salt }
{
    let (has, bytes) = field.split_at(1);
    if has[0] == 0 {
        return None;
    }
    let mut salt = [0; 16];
    salt.copy_from_slice(bytes);
    Some(salt)
}

// The column that these bytes spell, if any do.
fn column_in(table: &Name, field: &[u8]) -> Option<Column>
    requires { length field.now ≡ 36 }
    ensures table { IfSome result (λ c. c.table ≡ table.now) }
    ensures told { (c : TableColumn) → FitsColumn table.now c → field.now ≡ column_text c
        → result ≡ Some c }
{
    let (name, rest) = field.split_at(33);
    let name = name_in(name)?;
    Some(Column {
        table: table.copied(),
        name,
        kind: kind_in(rest[0], rest[1]),
        key: rest[2] == 1,
    })
}

// Adds the columns that these bytes spell, if any do.
fn add_columns(table: &Name, count: u8, fields: &[u8], schema: &mut Schema) -> bool
    requires few { length schema.old + count ≤ 16 }
    requires wide { 36 * count ≤ length fields.now }
    ensures few { length schema.new ≤ 16 }
    ensures table { All (λ (c : TableColumn). c.table ≡ table.now) schema.old
        → All (λ (c : TableColumn). c.table ≡ table.now) schema.new }
    ensures told { (cs : Columns) → length cs ≡ count → All (FitsColumn table.now) cs
        → fields.now ≡ columns_text (length fields.now) cs
        → (result ≡ true) × (schema.new ≡ schema.old ++ cs) }
{
    if count == 0 {
        return true;
    }
    let (field, fields) = fields.split_at(36);
    match column_in(table, field) {
        None => false,
        Some(column) => {
            schema.push(column);
            add_columns(table, count - 1, fields, schema)
        }
    }
}

// The columns that these bytes spell, if any do.
fn columns_in(table: &Name, count: u8, fields: &[u8]) -> Option<Schema>
    requires { length fields.now ≡ 953 }
    ensures few { IfSome result (λ cs. length cs ≤ 16) }
    ensures table { IfSome result (λ cs. All (λ (c : TableColumn). c.table ≡ table.now) cs) }
    ensures told { (cs : Columns) → length cs ≤ 16 → length cs ≡ count
        → All (FitsColumn table.now) cs → fields.now ≡ columns_text 953 cs → result ≡ Some cs }
{
    let mut schema = Schema::new();
    if count <= 16 && add_columns(table, count, fields, &mut schema) {
        Some(schema)
    } else {
        None
    }
}

// The table that these bytes spell, if any do.
fn parsed(text: &[u8]) -> Option<Listed>
    requires { length text.now ≡ 1024 }
    ensures few { IfSome result (λ t. length t.table.heading.schema ≤ 16) }
    ensures table { IfSome result (λ t. NamesTable t.table.heading) }
    ensures flat { IfSome result (λ t. t.table.heading.shape ≡ Flat) }
    ensures salt { IfSome result (λ t. IsSalt t.salt) }
    ensures told { (t : Entry) → FitsText t → text.now ≡ table_text t → result ≡ Some t }
{
    let (name, rest) = text.split_at(33);
    let (region, rest) = rest.split_at(8);
    let (capacity, rest) = rest.split_at(4);
    let (number, rest) = rest.split_at(8);
    let (count, rest) = rest.split_at(1);
    let (fields, salt) = rest.split_at(953);
    let name = name_in(name)?;
    let schema = columns_in(&name, count[0], fields)?;
    Some(Listed {
        table: Table {
            heading: Heading {
                name,
                schema,
                capacity: int_in(capacity),
                shape: Shape::Flat,
            },
            region: long_in(region),
        },
        number: long_in(number),
        salt: salt_in(salt),
    })
}

// The table that these bytes spell: no other bytes do.
fn table_in(text: &[u8]) -> Option<Listed>
    requires { length text.now ≡ 1024 }
    ensures table { IfSome result (λ t. NamesTable t.table.heading) }
    ensures flat { IfSome result (λ t. t.table.heading.shape ≡ Flat) }
    ensures salt { IfSome result (λ t. IsSalt t.salt) }
    ensures spelled { IfSome result (λ t. text.now ≡ table_text t) }
    ensures told { (t : Entry) → FitsText t → text.now ≡ table_text t → result ≡ Some t }
{
    let listed = parsed(text)?;
    let mut again = [0; TEXT_LEN];
    put_table(&listed, &mut again);
    if text == again.as_slice() {
        Some(listed)
    } else {
        None
    }
}

/// Whether these bytes are the head of a closing.
pub(crate) fn is_head(closing: Closing, text: &[u8]) -> bool
    requires size { length text.now ≡ 1024 }
    requires marked { IsMarked closing }
    ensures yes { OnTrue result
        (text.now ≡ head_text (closing.region + 1) (closing.blocks - 1)) }
    ensures no { OnFalse result
        (text.now ≡ head_text (closing.region + 1) (closing.blocks - 1) → ⊥) }
{
    let mut head = [0; TEXT_LEN];
    put_head(closing.region + 1, closing.blocks - 1, &mut head);
    text == head.as_slice()
}

/// The table that these bytes list after those before it, if they list one.
pub(crate) fn next_table(closing: Closing, before: &[Listed], text: &[u8]) -> Option<Listed>
    requires size { length text.now ≡ 1024 }
    requires marked { IsMarked closing }
    requires before { AreListed closing before.now }
    ensures listed { IfSome result (λ t. GoesOn closing before.now t) }
    ensures spelled { IfSome result (λ t. text.now ≡ table_text t) }
    ensures told { (t : Entry) → GoesOn closing before.now t → text.now ≡ table_text t
        → result ≡ Some t }
{
    let listed = table_in(text)?;
    if goes_on(closing, before, &listed) {
        Some(listed)
    } else {
        None
    }
}
