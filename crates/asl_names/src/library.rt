//! The subprograms of the library.

ghost use Rattle.std.specs.Prelude.{◌≡◌, map};
ghost use Rattle.asl_rules.specs.declarations.Names as rules;

/// The names of the subprograms of the library, in the order of the rules.
pub const LIBRARY: [&str; 12] = [
    "UInt",
    "SInt",
    "Zeros",
    "Ones",
    "ZeroExtend",
    "SignExtend",
    "IsZero",
    "IsOnes",
    "Len",
    "Abs",
    "Min",
    "Max",
];

fn is_among(names: &[&str], name: &[u8]) -> bool
    ensures { result ≡ rules.is_listed (map (λ n. n.now) names.now) name.now }
{
    for n in names {
        if n.as_bytes() == name {
            return true;
        }
    }
    false
}

/// Whether a subprogram of the library has this name.
pub fn is_listed(name: &[u8]) -> bool
    ensures { result ≡ rules.is_listed rules.library name.now }
{
    is_among(&LIBRARY, name)
}
