use mc_base::Weights;
use mc_book::AnyCollation;
use mc_charset::{CollId, is_well_formed};
use mc_order::{BinCollation, Collation};
use std::cmp::Ordering;

#[test]
fn a_built_in_collation_compares(rt: HostRuntime) {
    let collation = AnyCollation::Bin(BinCollation::new(CollId(1)));
    let mut out = Weights::new(rt.alloc());
    assert!(rt; is_well_formed(collation.charset(), b"a\t"), "latin1");
    assert!(rt; is_well_formed(collation.charset(), b"a"), "latin1");
    assert!(rt;
        collation.compare(b"a\t", b"a") == Ordering::Less,
        "TAB is below the space"
    );
    assert!(rt;
        collation.put_list(b"a\t", Some(1), &mut out).is_ok(),
        "ample memory"
    );
    assert!(rt; out.as_slice() == [0x62].as_slice());
}
