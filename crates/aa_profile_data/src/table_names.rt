//! Tables of names, each at the index that is its number.

ghost use Rattle.std.specs.Prelude.{◌≡◌, ◌≤◌, length, map, option_map, slice_get};
ghost use Rattle.aa_profile_data.specs.TableNames.{number_in};

/// The number of a name in a table, or `None`. `O(n)` in the number of names. It takes no memory.
pub fn number_in(names: &[&str], name: &[u8]) -> Option<u8>
    requires { length names.now ≤ 255 }
    ensures { result ≡ number_in (map (λ own. own.now) names.now) name.now }
{
    let mut number: u8 = 0;
    let mut rest = names;
    while let [own, behind @ ..] = rest {
        if own.as_bytes() == name {
            return Some(number);
        }
        number += 1;
        rest = behind;
    }
    None
}

/// The name of a number in a table, or `None`.
pub fn name_in<'a>(names: &[&'a str], number: u8) -> Option<&'a str>
    ensures { option_map (λ name. name.now) result ≡ slice_get (map (λ own. own.now) names.now) number }
{
    names.get(usize::from(number)).copied()
}
