//! Whether a store has this store's six tables and nothing else.

ghost use Rattle.std.specs.Prelude.{◌≡◌, ◌↔◌, map, IsTrue};
ghost use Rattle.std.specs.Bool.{Decides};
ghost use Rattle.zeb_register.specs.Tables.{no_schema, store_schema};
ghost use Rattle.zeb_register.specs.PrivateTableForms.{HasNoMore, column_of, column_with, columns_of, index_of, places_of, table_of};
ghost use Rattle.sqlite_value.specs.Keys.{plain};

use sqlite_items::Items;
use sqlite_schema::schema::{Column, Index, Kind, Schema, Table};
use sqlite_value::keys::{Collation, Order};
use sqlite_value::value::Value;

/// A column of a STRICT table, by its name and its type. It has no default, and its texts are compared by their bytes.
enum ColumnForm<'a> {
    /// The INTEGER PRIMARY KEY, which a row keeps as its rowid, and NULL in the column's place.
    RowId(&'a str),
    /// A column of this type that is NOT NULL.
    Full(&'a str, Kind),
}

/// A table with no other rules than those of its columns and its keys.
struct TableForm<'a> {
    name: &'a str,
    tree: u32,
    columns: &'a [ColumnForm<'a>],
    /// The column that is the INTEGER PRIMARY KEY.
    key: Option<usize>,
    /// The places of the PRIMARY KEY. A row is its rowid and then its columns.
    primary: &'a [usize],
    /// The places of each key that has an index.
    keys: &'a [&'a [usize]],
}

/// The index that SQLite makes for a key.
struct IndexForm<'a> {
    name: &'a str,
    tree: u32,
    table: u32,
    places: &'a [usize],
}

/// The six tables, in the order in which `make_tables` makes them.
const TABLES: &[TableForm<'static>] = &[
    TableForm {
        name: "meta",
        tree: 0,
        columns: &[
            ColumnForm::Full("name", Kind::Text),
            ColumnForm::Full("value", Kind::Text),
        ],
        key: None,
        primary: &[1],
        keys: &[&[1]],
    },
    TableForm {
        name: "databases",
        tree: 2,
        columns: &[
            ColumnForm::RowId("id"),
            ColumnForm::Full("name", Kind::Text),
            ColumnForm::Full("last", Kind::Integer),
        ],
        key: Some(0),
        primary: &[0],
        keys: &[&[2]],
    },
    TableForm {
        name: "records",
        tree: 4,
        columns: &[
            ColumnForm::Full("db", Kind::Integer),
            ColumnForm::Full("sysno", Kind::Integer),
            ColumnForm::Full("ident", Kind::Text),
            ColumnForm::Full("bytes", Kind::Blob),
        ],
        key: None,
        primary: &[1, 2],
        keys: &[&[1, 2], &[1, 3]],
    },
    TableForm {
        name: "postings",
        tree: 7,
        columns: &[
            ColumnForm::Full("db", Kind::Integer),
            ColumnForm::Full("idx", Kind::Integer),
            ColumnForm::Full("reg", Kind::Integer),
            ColumnForm::Full("term", Kind::Text),
            ColumnForm::Full("sysno", Kind::Integer),
            ColumnForm::Full("seq", Kind::Integer),
            ColumnForm::Full("pos", Kind::Integer),
        ],
        key: None,
        primary: &[1, 2, 3, 4, 5, 6, 7],
        keys: &[&[1, 2, 3, 4, 5, 6, 7]],
    },
    TableForm {
        name: "blocks",
        tree: 9,
        columns: &[
            ColumnForm::Full("db", Kind::Integer),
            ColumnForm::Full("idx", Kind::Integer),
            ColumnForm::Full("reg", Kind::Integer),
            ColumnForm::Full("term", Kind::Text),
            ColumnForm::Full("block", Kind::Integer),
            ColumnForm::Full("data", Kind::Blob),
        ],
        key: None,
        primary: &[1, 2, 3, 4, 5],
        keys: &[&[1, 2, 3, 4, 5]],
    },
    TableForm {
        name: "dict",
        tree: 11,
        columns: &[
            ColumnForm::Full("db", Kind::Integer),
            ColumnForm::Full("idx", Kind::Integer),
            ColumnForm::Full("reg", Kind::Integer),
            ColumnForm::Full("term", Kind::Text),
            ColumnForm::Full("records", Kind::Integer),
        ],
        key: None,
        primary: &[1, 2, 3, 4],
        keys: &[&[1, 2, 3, 4]],
    },
];

/// The indexes of their keys.
const INDEXES: &[IndexForm<'static>] = &[
    IndexForm {
        name: "sqlite_autoindex_meta_1",
        tree: 1,
        table: 0,
        places: &[1],
    },
    IndexForm {
        name: "sqlite_autoindex_databases_1",
        tree: 3,
        table: 2,
        places: &[2],
    },
    IndexForm {
        name: "sqlite_autoindex_records_1",
        tree: 5,
        table: 4,
        places: &[1, 2],
    },
    IndexForm {
        name: "sqlite_autoindex_records_2",
        tree: 6,
        table: 4,
        places: &[1, 3],
    },
    IndexForm {
        name: "sqlite_autoindex_postings_1",
        tree: 8,
        table: 7,
        places: &[1, 2, 3, 4, 5, 6, 7],
    },
    IndexForm {
        name: "sqlite_autoindex_blocks_1",
        tree: 10,
        table: 9,
        places: &[1, 2, 3, 4, 5],
    },
    IndexForm {
        name: "sqlite_autoindex_dict_1",
        tree: 12,
        table: 11,
        places: &[1, 2, 3, 4],
    },
];

fn is_plain_column(column: &Column, name: &str, kind: Kind, not_null: bool) -> bool
    ensures { Decides result (column.now ≡ column_with name.now kind not_null) }
{
    column.name.as_slice() == name.as_bytes()
        && column.kind == kind
        && column.is_strict
        && column.not_null == not_null
        && matches!(column.default, Value::Null)
        && matches!(column.collation, Collation::Binary)
}

fn is_column(column: &Column, form: &ColumnForm<'_>) -> bool
    ensures { Decides result (column.now ≡ column_of form.now) }
{
    match form {
        ColumnForm::RowId(name) => is_plain_column(column, name, Kind::Integer, false),
        ColumnForm::Full(name, kind) => is_plain_column(column, name, *kind, true),
    }
}

fn are_columns(columns: &[Column], forms: &[ColumnForm<'_>]) -> bool
    ensures { Decides result (columns.now ≡ columns_of forms.now) }
{
    let [column, columns @ ..] = columns else {
        return forms.is_empty();
    };
    let [form, forms @ ..] = forms else {
        return false;
    };
    is_column(column, form) && are_columns(columns, forms)
}

fn is_key(key: &Items<usize>, form: &[usize]) -> bool
    ensures { Decides result (key.now ≡ form.now) }
{
    key.as_slice() == form
}

fn are_keys(keys: &[Items<usize>], forms: &[&[usize]]) -> bool
    ensures { Decides result (keys.now ≡ places_of forms.now) }
{
    let [key, keys @ ..] = keys else {
        return forms.is_empty();
    };
    let [form, forms @ ..] = forms else {
        return false;
    };
    is_key(key, form) && are_keys(keys, forms)
}

/// Whether each key is in the order of its values' bytes.
fn are_plain(orders: &[Order], forms: &[&[usize]]) -> bool
    ensures { Decides result (orders.now ≡ map (λ _. plain) forms.now) }
{
    let [order, orders @ ..] = orders else {
        return forms.is_empty();
    };
    let [_, forms @ ..] = forms else {
        return false;
    };
    order.digits == 0 && are_plain(orders, forms)
}

/// Whether a table has no other rules than those of its columns and its keys.
fn has_no_more(table: &Table) -> bool
    ensures { Decides result (HasNoMore table.now) }
{
    table.checks.roots.is_empty()
        && table.references.is_empty()
        && table.computed.is_empty()
        && table.stamps.places.is_empty()
        && table.stamps.terms.roots.is_empty()
        && table.stamps.formats.is_empty()
        && !table.is_counted
}

fn is_table(table: &Table, form: &TableForm<'_>) -> bool
    ensures { Decides result (table.now ≡ table_of form.now) }
{
    table.name.as_slice() == form.name.as_bytes()
        && table.tree == form.tree
        && table.key == form.key
        && table.primary.as_slice() == form.primary
        && are_columns(table.columns.as_slice(), form.columns)
        && are_keys(table.uniques.as_slice(), form.keys)
        && are_plain(table.orders.as_slice(), form.keys)
        && has_no_more(table)
}

fn are_tables(tables: &[Table], forms: &[TableForm<'_>]) -> bool
    ensures { Decides result (tables.now ≡ map table_of forms.now) }
{
    let [table, tables @ ..] = tables else {
        return forms.is_empty();
    };
    let [form, forms @ ..] = forms else {
        return false;
    };
    is_table(table, form) && are_tables(tables, forms)
}

fn is_index(index: &Index, form: &IndexForm<'_>) -> bool
    ensures { Decides result (index.now ≡ index_of form.now) }
{
    index.name.as_slice() == form.name.as_bytes()
        && index.tree == form.tree
        && index.table == form.table
        && index.columns.as_slice() == form.places
        && index.order.digits == 0
        && index.is_unique
}

fn are_indexes(indexes: &[Index], forms: &[IndexForm<'_>]) -> bool
    ensures { Decides result (indexes.now ≡ map index_of forms.now) }
{
    let [index, indexes @ ..] = indexes else {
        return forms.is_empty();
    };
    let [form, forms @ ..] = forms else {
        return false;
    };
    is_index(index, form) && are_indexes(indexes, forms)
}

/// Whether a store has this store's six tables with the indexes of their keys, and no other table, no other index and
/// no view.
pub fn is_store_schema(schema: &Schema) -> bool
    ensures { IsTrue result ↔ (schema.now ≡ store_schema) }
{
    are_tables(schema.tables.as_slice(), TABLES)
        && are_indexes(schema.indexes.as_slice(), INDEXES)
        && schema.views.is_empty()
}

/// Whether a store has no table, no index and no view.
pub fn is_bare_schema(schema: &Schema) -> bool
    ensures { IsTrue result ↔ (schema.now ≡ no_schema) }
{
    schema.tables.is_empty() && schema.indexes.is_empty() && schema.views.is_empty()
}
