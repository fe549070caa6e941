// The name of a client, and the form after it.
ghost use Rattle.std.specs.Prelude.{◌≡◌};
ghost use Rattle.std.specs.List.{list_all};
ghost use Rattle.std.specs.Option.{option_map};
ghost use Rattle.client_table.specs.Names.{form_in, is_client_name, is_name_byte, client_name_in};

/// What stands before the first space of a text, and what comes after it; the whole text and None where it has no space.
#[tactic(auto, using(crate::proofs::Spaces::at_first, crate::proofs::Spaces::at_next, crate::proofs::Spaces::at_space, crate::proofs::Spaces::no_space, crate::proofs::Spaces::rest_at_space))]
pub(crate) fn split(text: &[u8]) -> (&[u8], Option<&[u8]>)
    ensures name { result.0.now ≡ client_name_in text.now }
    ensures form { option_map (λ form. form.now) result.1 ≡ form_in text.now }
{
    for (i, byte) in text.iter().enumerate() {
        if *byte == b' ' {
            return (&text[..i], Some(&text[i + 1..]));
        }
    }
    (text, None)
}

/// Whether this is the name of a client.
pub(crate) fn is_client_name(name: &[u8]) -> bool
    ensures { result ≡ is_client_name name.now }
{
    if name.is_empty() || name.len() > 100 {
        return false;
    }
    are_name_bytes(name)
}

fn are_name_bytes(name: &[u8]) -> bool
    ensures { result ≡ list_all is_name_byte name.now }
{
    name.iter().all(|byte| is_name_byte(*byte))
}

fn is_name_byte(byte: u8) -> bool
    ensures { result ≡ is_name_byte byte }
{
    byte.is_ascii_alphanumeric() || byte == b'-' || byte == b'.' || byte == b'_'
}
