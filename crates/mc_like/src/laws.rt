ghost use Rattle.mc_like.specs.Laws.{EachIsItem, EachOtherIsItem, EscapedIsLiteral};
ghost use Rattle.mc_like.specs.Laws.{LastEscapeIsLiteral, AnyMatchesAll, LiteralsMatchEach};
ghost use Rattle.mc_like.specs.Laws.{JoinedMatchAtCut, BeginsLikeFront, LikeIsAnswered};
ghost use Rattle.mc_order.specs.Meaning.{Meaning};

/// What the items of a pattern are: MySQL 8.0 manual, 12.8.1, LIKE.
pub fn item_laws()
    ensures each { EachIsItem }
    ensures each_other { EachOtherIsItem }
    ensures escaped { EscapedIsLiteral }
    ensures last_escape { LastEscapeIsLiteral }
{}

/// What LIKE is: MySQL 8.0 manual, 12.8.1, LIKE. By the last law a text that matches begins like
/// the pattern's literal prefix.
pub fn like_laws()
    ensures answered { (m : Meaning) → LikeIsAnswered m }
    ensures any { (m : Meaning) → AnyMatchesAll m }
    ensures literals { (m : Meaning) → LiteralsMatchEach m }
    ensures joined { (m : Meaning) → JoinedMatchAtCut m }
    ensures front { (m : Meaning) → BeginsLikeFront m }
{}
