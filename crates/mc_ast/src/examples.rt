ghost use Rattle.mc_ast.specs.Operators.{
  OrIsOneList,
  AndIsOneList,
  XorGroupsLeft,
  XorBeforeOr,
  AndBeforeXor,
  NotBeforeAnd,
  ComparisonBeforeNot,
  BangIsUnequal,
  NullEqual,
  SumBeforeComparison,
  IsNotNull,
  LikeWithEscape,
  NotLike,
  NotIn,
  BetweenTakesItsAnd,
  SumGroupsLeft,
  ProductBeforeSum,
  ParenthesesMakeNoNode,
  ModIsAnOperator,
  MinusBeforeProduct,
  MinusOfMinus,
  CollateBeforeMinus,
  CollateBinary,
};
ghost use Rattle.mc_ast.specs.Literals.{
  StringsSideBySide,
  NationalString,
  StringWithItsSet,
  BytesWithTheirSet,
  SuchAWordAlone,
  ColumnOfATable,
  TrueIsTrue,
};
ghost use Rattle.mc_ast.specs.Calls.{
  ModIsACall,
  CallOfNothing,
  CountOfAll,
  CountOfDistinct,
  PlainCount,
  TrimFrom,
  TrimLeading,
  PlainTrim,
  SubstringFromFor,
  WeightStringOfOne,
  WeightStringCut,
  WeightStringOfTwo,
  ConvertUsing,
  CastAsChar,
  CastAsBinary,
  CastAlone,
};
ghost use Rattle.mc_ast.specs.Clauses.{
  StarAndAnItem,
  Aliases,
  ItemWithParentheses,
  EscapeAsAlias,
  OffsetBefore,
  OffsetBehind,
  LimitAlone,
  EveryClause,
  TrimOfNeither,
  StarWithoutTable,
  ReservedAlias,
  CastAsACall,
  StringBehindAName,
};

/// How operators group, by examples: MySQL 8.0 manual, 12.4.1.
pub fn operators_group()
    ensures or_is_one_list { OrIsOneList }
    ensures and_is_one_list { AndIsOneList }
    ensures xor_groups_left { XorGroupsLeft }
    ensures xor_before_or { XorBeforeOr }
    ensures and_before_xor { AndBeforeXor }
    ensures not_before_and { NotBeforeAnd }
    ensures comparison_before_not { ComparisonBeforeNot }
    ensures bang_is_unequal { BangIsUnequal }
    ensures null_equal { NullEqual }
    ensures sum_before_comparison { SumBeforeComparison }
    ensures is_not_null { IsNotNull }
    ensures like_with_escape { LikeWithEscape }
    ensures not_like { NotLike }
    ensures not_in { NotIn }
    ensures between_takes_its_and { BetweenTakesItsAnd }
    ensures sum_groups_left { SumGroupsLeft }
    ensures product_before_sum { ProductBeforeSum }
    ensures parentheses_make_no_node { ParenthesesMakeNoNode }
    ensures mod_is_an_operator { ModIsAnOperator }
    ensures minus_before_product { MinusBeforeProduct }
    ensures minus_of_minus { MinusOfMinus }
    ensures collate_before_minus { CollateBeforeMinus }
    ensures collate_binary { CollateBinary }
{}

/// Literals and names, by examples: MySQL 8.0 manual, 9.1 and 9.2.
pub fn literals_and_names()
    ensures strings_side_by_side { StringsSideBySide }
    ensures national_string { NationalString }
    ensures string_with_its_set { StringWithItsSet }
    ensures bytes_with_their_set { BytesWithTheirSet }
    ensures such_a_word_alone { SuchAWordAlone }
    ensures column_of_a_table { ColumnOfATable }
    ensures true_is_true { TrueIsTrue }
{}

/// Calls, by examples: MySQL 8.0 manual, 12.7, 12.8 and 12.10.
pub fn calls()
    ensures mod_is_a_call { ModIsACall }
    ensures call_of_nothing { CallOfNothing }
    ensures count_of_all { CountOfAll }
    ensures count_of_distinct { CountOfDistinct }
    ensures plain_count { PlainCount }
    ensures trim_from { TrimFrom }
    ensures trim_leading { TrimLeading }
    ensures plain_trim { PlainTrim }
    ensures substring_from_for { SubstringFromFor }
    ensures weight_string_of_one { WeightStringOfOne }
    ensures weight_string_cut { WeightStringCut }
    ensures weight_string_of_two { WeightStringOfTwo }
    ensures convert_using { ConvertUsing }
    ensures cast_as_char { CastAsChar }
    ensures cast_as_binary { CastAsBinary }
    ensures cast_alone { CastAlone }
{}

/// The clauses of a statement, by examples: MySQL 8.0 manual, 13.2.10.
pub fn clauses()
    ensures star_and_an_item { StarAndAnItem }
    ensures aliases { Aliases }
    ensures item_with_parentheses { ItemWithParentheses }
    ensures escape_as_alias { EscapeAsAlias }
    ensures offset_before { OffsetBefore }
    ensures offset_behind { OffsetBehind }
    ensures limit_alone { LimitAlone }
    ensures every_clause { EveryClause }
    ensures trim_of_neither { TrimOfNeither }
    ensures star_without_table { StarWithoutTable }
    ensures reserved_alias { ReservedAlias }
    ensures cast_as_a_call { CastAsACall }
    ensures string_behind_a_name { StringBehindAName }
{}
