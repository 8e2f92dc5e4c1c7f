//! Whether two acts have the same tree.
ghost use Rattle.std.specs.Prelude.{◌≡◌, true};

use run_rules::{Act, DepthName};

/// Whether two lines have the same name at the same depth.
fn are_alike(one: &DepthName, other: &DepthName) -> bool
    ensures { result ≡ true → one.now ≡ other.now }
{
    one.depth == other.depth && one.name == other.name
}

/// Whether two lists have the same names at the same depths.
fn have_same_names(one: &[DepthName], other: &[DepthName]) -> bool
    ensures { result ≡ true → one.now ≡ other.now }
{
    if one.len() != other.len() {
        return false;
    }
    for place in 0..one.len() {
        if !are_alike(&one[place], &other[place]) {
            return false;
        }
    }
    true
}

/// Whether both acts have a tree, and it is the same.
pub fn tell_one_tree(one: &Act, other: &Act) -> bool
    ensures { result ≡ true → one.now ≡ other.now }
{
    match (one, other) {
        (
            Act::TreeDev {
                device: top,
                names: Some(names),
            },
            Act::TreeDev {
                device: other_top,
                names: Some(other_names),
            },
        ) => top == other_top && have_same_names(names.items(), other_names.items()),
        _ => false,
    }
}
