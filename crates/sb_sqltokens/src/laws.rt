// Laws of tokens: a function without effect, whose contract is the statement.
ghost use Rattle.sb_sqltokens.specs.Spelled.{TokensFound, TokensOnly};

/// Each text has the tokens that `tokens_of` of the definitions lists, at each place the longest,
/// and no others.
pub fn tokens_are_longest()
    ensures found { TokensFound }
    ensures only { TokensOnly }
{}
