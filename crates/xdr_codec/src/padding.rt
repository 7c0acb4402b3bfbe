ghost use Rattle.std.specs.Prelude.{◌≡◌, ◌<◌, ◌≤◌, ◌+◌, ◌^◌};
ghost use Rattle.xdr_codec.specs.Items.{padded};

/// A length with the bytes that fill its last four (RFC 4506 3).
pub fn padded_length(n: usize) -> usize
    requires { n < 2 ^ 63 }
    ensures value { result ≡ padded n }
    ensures least { n ≤ result }
    ensures most { result ≤ n + 3 }
{
    (n + 3) / 4 * 4
}
