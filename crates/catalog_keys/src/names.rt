// How two names compare, and two keys by parent and name.
ghost use Rattle.std.specs.Prelude.{◌≡◌};
ghost use Rattle.catalog_keys.specs.Weights.{weights};
ghost use Rattle.catalog_keys.specs.Key.{number, names, compared, asked};

use super::weights::weight_in;
use std::cmp::Ordering;

// A key, its name where it stands.
#[derive(Clone, Copy)]
pub struct NamedKey<'a> {
    pub parent: u64,
    pub name: &'a [u8],
}

// The first bytes that weigh differently decide, and then the lengths.
fn compare_names(table: &[u8; 256], a: &[u8], b: &[u8]) -> Ordering
    requires { table.now ≡ weights }
    ensures { number result ≡ names a.now b.now }
{
    for (x, y) in a.iter().zip(b) {
        let order = weight_in(table, *x).cmp(&weight_in(table, *y));
        if order.is_ne() {
            return order;
        }
    }
    a.len().cmp(&b.len())
}

// Parent, then name.
pub fn compare_keys(table: &[u8; 256], a: NamedKey, b: NamedKey) -> Ordering
    requires { table.now ≡ weights }
    ensures { number result ≡ compared (asked a.entry.parent a.entry.name.now) (asked b.entry.parent b.entry.name.now) }
{
    let parents = a.parent.cmp(&b.parent);
    if parents.is_ne() {
        return parents;
    }
    compare_names(table, a.name, b.name)
}
