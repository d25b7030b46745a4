// Versions of HTTP that are read.
ghost use Rattle.std.specs.Prelude.{◌≡◌, ◌≤◌};
ghost use Rattle.sb_http.specs.Version.{minor_of};

/// The version of a request.
#[derive(Clone, Copy, PartialEq, Eq)]
pub enum Version {
    Http10,
    Http11,
}

/// The version that has this minor number.
pub(crate) fn version_of(minor: u8) -> Version
    requires { minor ≤ 1 }
    ensures { minor_of result ≡ minor }
{
    if minor == 0 {
        Version::Http10
    } else {
        Version::Http11
    }
}
