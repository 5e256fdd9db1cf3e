use mc_catalog::{
    Catalog, CatalogFault, ColumnType, Kind, default_of, find_collation, plain_catalog,
    read_catalog,
};
use mc_charset::{Charset, CollId};

#[test]
fn the_plain_catalog_names_the_binary_collations(rt: HostRuntime) {
    let catalog = plain_catalog(rt.alloc());
    assert!(rt; catalog.is_ok(), "ample memory");
    if let Ok(catalog) = catalog {
        assert!(rt;
            find_collation(&catalog, b"utf8mb4_0900_bin") == Some(CollId(8)),
            "the last"
        );
        assert!(rt;
            find_collation(&catalog, b"utf8mb4_0900_ai_ci").is_none(),
            "undeclared"
        );
        assert!(rt;
            default_of(&catalog, Charset::Utf8mb4) == CollId(4),
            "its binary collation"
        );
        assert!(rt;
            default_of(&catalog, Charset::Binary) == CollId(0),
            "its usual collation"
        );
    }
}

/// Two collations, two tables, and each type of column.
const FILE: &[u8] = b"collation l latin1 table8 g2.txt # bytes
collation U utf8mb4 uca400 k4.txt rules ch.txt
connection u
table p p.csv
column id bigint
column Name varchar 20 U
index n name 10
table h h.csv
column a char 12 L
column b binary 16
column c varbinary 4096
index w b
";

/// Whether the collations are those of the file.
fn has_collations(catalog: &Catalog) -> bool {
    catalog.connection == CollId(10)
        && matches!(catalog.collations.as_slice(), [_, _, _, _, _, _, _, _, _, l, u]
            if l.name.as_slice() == b"l".as_slice()
                && l.charset == Charset::Latin1
                && l.kind == Kind::Table8
                && l.file.as_slice() == b"g2.txt".as_slice()
                && l.rules.is_none()
                && u.name.as_slice() == b"u".as_slice()
                && u.kind == Kind::Uca400
                && matches!(&u.rules, Some(rules) if rules.as_slice() == b"ch.txt".as_slice()))
}

/// Whether the tables are those of the file.
fn has_tables(catalog: &Catalog) -> bool {
    let [p, h] = catalog.tables.as_slice() else {
        return false;
    };
    let varchar = ColumnType::VarChar {
        n: 20,
        coll: CollId(10),
    };
    let char = ColumnType::Char {
        n: 12,
        coll: CollId(9),
    };
    matches!((p.columns.as_slice(), p.indexes.as_slice()), ([id, name], [n])
        if id.ty == ColumnType::BigInt
            && name.name.as_slice() == b"name".as_slice()
            && name.ty == varchar
            && n.column == 1
            && n.prefix == Some(10))
        && matches!((h.columns.as_slice(), h.indexes.as_slice()), ([a, b, c], [w])
            if a.ty == char
                && b.ty == ColumnType::Binary { n: 16 }
                && c.ty == ColumnType::VarBinary { n: 4096 }
                && w.column == 1
                && w.prefix.is_none())
}

#[test]
fn a_file_is_read(rt: HostRuntime) {
    let catalog: Result<Catalog, CatalogFault> = read_catalog(rt.alloc(), FILE);
    assert!(rt;
        matches!(&catalog, Ok(c) if has_collations(c)),
        "collations"
    );
    assert!(rt; matches!(&catalog, Ok(c) if has_tables(c)), "tables");
}
