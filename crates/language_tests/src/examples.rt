//! The grammars of the examples, with their inputs.

const SUM_GRAMMAR: &[u8] = br#"E ::= E '+' E | '1'
"#;

const SUM_INPUT: &[u8] = br#"1+1+1"#;

const OPERATORS_GRAMMAR: &[u8] =
    br#"# Expressions: the operators of each group bind tighter than those behind it
lexeme default = latm => 1
:default ::= action => ::array
:start ::= expression
expression ::=
     number                           action => ::first
   | ('(') expression (')')           assoc => group, action => ::first
  || expression '^' expression        assoc => right
  || '-' expression
  || expression '*' expression
   | expression '/' expression
  || expression '+' expression
   | expression '-' expression
number ~ digits | digits '.' digits
digits ~ [\d]+
:discard ~ space
space ~ [\s]+
"#;

const OPERATORS_INPUT: &[u8] = br#"-2^3^2 + 12 / (5-2-1) / 1.5
"#;

const INI_GRAMMAR: &[u8] = br#"# Settings: sections of keys and values, a line each, with comments
lexeme default = latm => 1
:default ::= action => ::array
file ::= (<first lines>) sections action => ::first
<first lines> ::= eol*
sections ::= section+
section ::= ('[') name (']') (ends) entries
entries ::= entry*
entry ::= name ('=') setting (ends)
setting ::= value action => ::first
setting ::=
ends ::= eol+
name ~ [\w.-]+
value ~ bit+ separator => gap proper => 1
bit ~ [^\s#]+
gap ~ [ \t]+
eol ~ [\n] | [\r] [\n]
:discard ~ gap
:discard ~ comment
comment ~ '#' <to the end>
<to the end> ~ [^\n]*
"#;

const INI_INPUT: &[u8] = br#"# two servers

[web]
host = example.org
motto = small and fast   # shown to all

[mail.old]
port = 25
user =
"#;

const CSV_GRAMMAR: &[u8] = br#"# A table: lines of fields that are parted by commas
lexeme default = latm => 1
:default ::= action => ::array
table ::= line+ separator => eol
line ::= field+ separator => comma proper => 1
:default ::= action => ::first
field ::= bare | quoted
bare ~ [^,"\r\n]+
quoted ~ '"' inner '"'
inner ~ character*
character ~ [^"] | '""'
comma ~ ','
eol ~ [\n] | [\r] [\n]
"#;

const CSV_INPUT: &[u8] = br#"name,born,place
Ada,1815,"London, England"
Grace,1906,"New ""Amsterdam"""
"#;

const ARROW_GRAMMAR: &[u8] = br#"# A sentence with three readings: the higher rank comes first
lexeme default = latm => 1 action => [name,value]
:default ::= action => [name,values]
sentence ::= order rank => -1
           | likes
           | flight rank => 1
order ::= verb object manner
likes ::= subject verb object
flight ::= subject verb manner
subject ::= noun | noun noun
object ::= noun | article noun
manner ::= preposition object
noun ~ 'time' | 'flies' | 'arrow'
verb ~ 'time' | 'flies' | 'like'
preposition ~ 'like'
article ~ 'a' | 'an'
:discard ~ space
space ~ [\s]+
"#;

const ARROW_INPUT: &[u8] = br#"time flies like an arrow
"#;

const LISP_GRAMMAR: &[u8] = br#"# Lisp: a list is its first element and the list of the others
lexeme default = latm => 1
:default ::= action => ::first
program ::= datum* action => ::array
datum ::= symbol | string | list | quoted
        | number action => [name,values]
list ::= ('(') others
others ::= datum others action => ::array
         | (')') action => ::array
quoted ::= (quote) datum action => [name,values]
symbol ~ [^\s()'";]+
number ~ digits | [+-] digits
:lexeme ~ number priority => 1
digits ~ [\d]+
string ~ ["] characters ["]
characters ~ character*
character ~ [^"\\] | '\' [^\n]
quote ~ [']
:discard ~ space
space ~ [\s]+
:discard ~ comment
comment ~ ';' <to the end>
<to the end> ~ [^\n]*
"#;

const LISP_INPUT: &[u8] = br#"; the square of a number
(define (square x) (* x x))
(print '(-2 a1) "a \"b\"") ; done
"#;

const JSON_GRAMMAR: &[u8] = br#"# JSON with comments
lexeme default = latm => 1
:default ::= action => ::first
json ::= value
value ::= object | array | string | number | word
object ::= ('{') members ('}') action => [name,values]
members ::= pair* action => ::array separator => comma proper => 1
pair ::= string (':') value action => ::array
array ::= ('[') elements (']') action => [name,values]
elements ::= value* action => ::array separator => comma proper => 1
word ::= 'true' | 'false' | 'null'
string ~ quote chars quote
quote ~ ["]
chars ~ char*
char ~ [^"\\\x{0}-\x{1F}] | '\' escape
escape ~ ["\\/bfnrt] | 'u' hex hex hex hex
hex ~ [0-9a-fA-F]
number ~ int | int frac | int exp | int frac exp
int ~ digits | '-' digits
digits ~ [0-9]+
frac ~ '.' digits
exp ~ e digits | e [+-] digits
e ~ [eE]
comma ~ ','
:discard ~ space
space ~ [\s]+
:discard ~ <hash comment>
<hash comment> ~ '#' <comment text>
<comment text> ~ [^\x{A}]*
"#;

const JSON_INPUT: &[u8] = br#"{"name": "Ada", "tags": ["x", 10, -2.5e3], # note
 "ok": true, "none": null, "empty": {}}"#;

/// Grammars and inputs.
pub(crate) static EXAMPLES: [(&[u8], &[u8]); 7] = [
    (SUM_GRAMMAR, SUM_INPUT),
    (OPERATORS_GRAMMAR, OPERATORS_INPUT),
    (INI_GRAMMAR, INI_INPUT),
    (CSV_GRAMMAR, CSV_INPUT),
    (ARROW_GRAMMAR, ARROW_INPUT),
    (LISP_GRAMMAR, LISP_INPUT),
    (JSON_GRAMMAR, JSON_INPUT),
];
