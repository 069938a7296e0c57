// The words that can't be names.
ghost use Rattle.std.specs.Prelude.{◌≡◌};
ghost use Rattle.gq_grammar.specs.Reserved as words;

/// Whether the word, in any letter case, is reserved by the language and can't be a name.
#[tactic(auto, unfolding(crate::specs::Reserved::is_reserved))]
pub fn is_reserved(word: &str) -> bool
    ensures { result ≡ words.is_reserved word.now }
{
    is_expression_word(word) || is_statement_word(word) || is_declaration_word(word)
}

fn is_statement_word(word: &str) -> bool
    ensures { result ≡ words.is_statement_word word.now }
{
    is_select_word(word)
        || is_order_word(word)
        || is_control_word(word)
        || is_print_word(word)
        || is_set_word(word)
}

fn is_declaration_word(word: &str) -> bool
    ensures { result ≡ words.is_declaration_word word.now }
{
    is_type_word(word)
        || is_tuple_word(word)
        || is_number_kind(word)
        || is_bit_kind(word)
        || is_collection_kind(word)
}

fn is_expression_word(word: &str) -> bool
    ensures { result ≡ words.is_expression_word word.now }
{
    is(word, "AND")
        || is(word, "OR")
        || is(word, "NOT")
        || is(word, "TRUE")
        || is(word, "FALSE")
        || is(word, "_")
}

fn is_select_word(word: &str) -> bool
    ensures { result ≡ words.is_select_word word.now }
{
    is(word, "SELECT")
        || is(word, "FROM")
        || is(word, "WHERE")
        || is(word, "ACCUM")
        || is(word, "POST")
        || is(word, "POST_ACCUM")
}

fn is_order_word(word: &str) -> bool
    ensures { result ≡ words.is_order_word word.now }
{
    is(word, "HAVING")
        || is(word, "ORDER")
        || is(word, "BY")
        || is(word, "LIMIT")
        || is(word, "ASC")
        || is(word, "DESC")
}

fn is_control_word(word: &str) -> bool
    ensures { result ≡ words.is_control_word word.now }
{
    is(word, "IF")
        || is(word, "THEN")
        || is(word, "ELSE")
        || is(word, "END")
        || is(word, "WHILE")
        || is(word, "DO")
}

fn is_print_word(word: &str) -> bool
    ensures { result ≡ words.is_print_word word.now }
{
    is(word, "FOREACH")
        || is(word, "IN")
        || is(word, "RANGE")
        || is(word, "PRINT")
        || is(word, "AS")
}

fn is_set_word(word: &str) -> bool
    ensures { result ≡ words.is_set_word word.now }
{
    is(word, "UNION")
        || is(word, "INTERSECT")
        || is(word, "MINUS")
        || is(word, "ANY")
        || is(word, "ALL")
}

fn is_type_word(word: &str) -> bool
    ensures { result ≡ words.is_type_word word.now }
{
    is(word, "INT")
        || is(word, "UINT")
        || is(word, "BOOL")
        || is(word, "STRING")
        || is(word, "VERTEX")
}

fn is_tuple_word(word: &str) -> bool
    ensures { result ≡ words.is_tuple_word word.now }
{
    is(word, "TYPEDEF") || is(word, "TUPLE")
}

fn is_number_kind(word: &str) -> bool
    ensures { result ≡ words.is_number_kind word.now }
{
    is(word, "SumAccum") || is(word, "MinAccum") || is(word, "MaxAccum") || is(word, "AvgAccum")
}

fn is_bit_kind(word: &str) -> bool
    ensures { result ≡ words.is_bit_kind word.now }
{
    is(word, "OrAccum")
        || is(word, "AndAccum")
        || is(word, "BitwiseOrAccum")
        || is(word, "BitwiseAndAccum")
}

fn is_collection_kind(word: &str) -> bool
    ensures { result ≡ words.is_collection_kind word.now }
{
    is(word, "SetAccum")
        || is(word, "BagAccum")
        || is(word, "ListAccum")
        || is(word, "MapAccum")
        || is(word, "GroupByAccum")
        || is(word, "HeapAccum")
}

// Compares two words, ignoring the case of letters.
fn is(word: &str, other: &str) -> bool
    ensures { result ≡ words.is word.now other.now }
{
    word.eq_ignore_ascii_case(other)
}
