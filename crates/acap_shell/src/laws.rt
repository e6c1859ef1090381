//! What is printed can be read back: each function does nothing, and its contract is the law.

ghost use Rattle.std.specs.Prelude.{◌≡◌, true};
ghost use Rattle.std.specs.List.{list_all};
ghost use Rattle.acap_shell.specs.Escapes.{is_plain, printed_value, read_back};

/// What is printed says which octets it stands for: does nothing.
pub fn read_back_law(octets: &[u8])
    ensures { read_back (printed_value octets.now) ≡ octets.now }
{
    let _octets = octets;
}

/// Printable text without a backslash is printed as it is: does nothing.
pub fn plain_law(octets: &[u8])
    ensures { list_all is_plain octets.now ≡ true → printed_value octets.now ≡ octets.now }
{
    let _octets = octets;
}
