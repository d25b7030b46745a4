// Names of headers that are no user properties.
ghost use Rattle.std.specs.Prelude.{◌≡◌, take};
ghost use Rattle.sb_rest.specs.Reserved as reserved;

use sb_http::is_word;

/// Whether a header of this name, in any case, is no user property of what is sent.
#[tactic(auto, unfolding(crate::specs::Reserved::is_reserved))]
pub(crate) fn is_reserved(name: &[u8]) -> bool
    ensures { result ≡ reserved.is_reserved name.now }
{
    is_framing(name)
        || is_asking(name)
        || is_of_client(name)
        || is_of_proxy(name)
        || is_of_access(name)
        || is_of_paths(name)
}

/// Whether a user property of this name is no header of a response.
#[tactic(auto, unfolding(crate::specs::Reserved::is_hidden))]
pub(crate) fn is_hidden(name: &[u8]) -> bool
    ensures { result ≡ reserved.is_hidden name.now }
{
    is_reserved(name) || rules_readers(name)
}

/// The first bytes, so many or all.
pub(crate) fn front(bytes: &[u8], n: usize) -> &[u8]
    ensures { result.now ≡ take n bytes.now }
{
    if n <= bytes.len() { &bytes[..n] } else { bytes }
}

/// Whether a name begins with this word, in any case.
pub(crate) fn begins(front_word: &[u8], name: &[u8]) -> bool
    ensures { result ≡ reserved.begins front_word.now name.now }
{
    is_word(front_word, front(name, front_word.len()))
}

fn is_framing(name: &[u8]) -> bool
    ensures { result ≡ reserved.is_framing name.now }
{
    is_word(b"host", name)
        || is_word(b"content-length", name)
        || is_word(b"content-type", name)
        || is_word(b"content-encoding", name)
        || is_word(b"transfer-encoding", name)
        || is_word(b"connection", name)
        || is_word(b"keep-alive", name)
        || is_word(b"te", name)
        || is_word(b"trailer", name)
        || is_word(b"http2-settings", name)
}

fn is_asking(name: &[u8]) -> bool
    ensures { result ≡ reserved.is_asking name.now }
{
    is_word(b"upgrade", name)
        || is_word(b"expect", name)
        || is_word(b"max-forwards", name)
        || is_word(b"date", name)
        || is_word(b"accept", name)
        || is_word(b"accept-charset", name)
        || is_word(b"accept-encoding", name)
        || is_word(b"accept-language", name)
        || is_word(b"cache-control", name)
        || is_word(b"pragma", name)
}

fn is_of_client(name: &[u8]) -> bool
    ensures { result ≡ reserved.is_of_client name.now }
{
    is_word(b"user-agent", name)
        || is_word(b"origin", name)
        || is_word(b"referer", name)
        || is_word(b"cookie", name)
        || is_word(b"dnt", name)
        || begins(b"sec-", name)
}

fn is_of_proxy(name: &[u8]) -> bool
    ensures { result ≡ reserved.is_of_proxy name.now }
{
    is_word(b"via", name)
        || is_word(b"forwarded", name)
        || is_word(b"x-real-ip", name)
        || begins(b"x-forwarded-", name)
        || begins(b"x-accel-", name)
        || begins(b"proxy-", name)
}

fn is_of_access(name: &[u8]) -> bool
    ensures { result ≡ reserved.is_of_access name.now }
{
    is_word(b"authorization", name)
        || is_word(b"servicebusauthorization", name)
        || is_word(b"servicebussupplementaryauthorization", name)
        || is_word(b"servicebusdlqsupplementaryauthorization", name)
}

fn is_of_paths(name: &[u8]) -> bool
    ensures { result ≡ reserved.is_of_paths name.now }
{
    is_word(b"brokerproperties", name) || is_word(b"location", name) || begins(b"repeat-", name)
}

fn rules_readers(name: &[u8]) -> bool
    ensures { result ≡ reserved.rules_readers name.now }
{
    is_word(b"set-cookie", name)
        || is_word(b"x-sendfile", name)
        || is_word(b"refresh", name)
        || is_word(b"clear-site-data", name)
        || is_word(b"alt-svc", name)
        || is_word(b"strict-transport-security", name)
        || is_word(b"content-security-policy", name)
        || is_word(b"www-authenticate", name)
        || begins(b"access-control-", name)
}
