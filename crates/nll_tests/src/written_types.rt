//! Types that are read from lines.
use super::lines::OfLine;
use super::rows::{compare_lines, compare_text};
use super::transcript::Transcript;
use nll_mir_grammar::{TypePiece, TypeText, a_type_has_tokens, one_type_at_most, type_at};
use nll_sets::Memory;

/// Writes the pieces of a type.
pub fn write_pieces(out: &mut Transcript, text: &TypeText<'_>) {
    for piece in text.pieces() {
        match piece {
            TypePiece::Int => out.say("int|"),
            TypePiece::Reference(is_mut, region) => {
                out.part(if *is_mut { "mut " } else { "& " }, region);
            }
            TypePiece::Row => out.say("row|"),
            TypePiece::Region(region) => out.part("'", region),
            TypePiece::Part => out.say("part|"),
            TypePiece::Tuple => out.say("tuple|"),
            TypePiece::Named(name) => out.part("", name),
            TypePiece::Function => out.say("fn|"),
        }
    }
}

/// Writes the pieces of the type at the front, and the bytes that are left after it.
pub fn write_front(out: &mut Transcript, line: &[u8]) {
    match type_at(out.alloc, line) {
        Ok(Some((text, left))) => {
            write_pieces(out, &text);
            drop(text);
            out.part("left ", left);
        }
        Ok(None) => out.say("none"),
        Err(_) => out.say("refused"),
    }
}

/// Writes whether a function is written in the type at the front.
pub fn write_function_flag(out: &mut Transcript, line: &[u8]) {
    match type_at(out.alloc, line) {
        Ok(Some((text, _))) => {
            out.flag("", text.has_function(), "");
            drop(text);
        }
        Ok(None) => out.say("none"),
        Err(_) => out.say("refused"),
    }
}

/// Writes what was reported, if no allocation failed.
pub fn write_flag(out: &mut Transcript, told: Result<bool, Memory>) {
    match told {
        Ok(is_so) => out.flag("", is_so, ""),
        Err(_) => out.say("refused"),
    }
}

// Lines, and the types at their front: the pieces of each, and the bytes that are left after it.
const TYPES: &str = "
 ~ none
int ~ int|left |
int, int ~ int|left , int|
int< ~ none
T ~ row|T|left |
t ~ none
W<'a> ~ row|'a|W|left |
W<int, 'b, ()> ~ row|int|part|'b|row|tuple|part|W|left |
W<> ~ none
W<'a ~ none
W<'a,> ~ none
W<'a> < ~ none
&'a int = 1 ~ & a|int|left  = 1|
&'a mut &'b T ~ mut a|& b|row|T|left |
& int ~ none
&'a mut ~ none
() ~ row|tuple|left |
(int) ~ row|int|part|tuple|left |
(int, (T), int) ~ row|int|part|row|row|T|part|tuple|part|int|part|tuple|left |
(int,) ~ none
(int ~ none
fn() -> int ~ row|int|fn|left |
fn(int) -> T< ~ none
fn(&'a int, T) -> (int) ~ row|& a|int|part|row|T|part|row|int|part|tuple|fn|left |
fn(fn() -> int) -> &'a mut fn() -> T, int ~ row|row|int|fn|part|mut a|row|row|T|fn|fn|left , int|
(fn(int) -> int) ~ row|row|int|part|int|fn|part|tuple|left |
W<fn() -> 'a> ~ none
W<'a, fn() -> int> ~ row|'a|row|int|fn|part|W|left |
fn ~ none
fn int ~ none
fn( ~ none
fn(, ~ none
fn() ~ none
fn()int ~ none
fn(int) ~ none
fn(int,) -> int ~ none
fn(int -> int ~ none
fn('a) -> int ~ none
fn() -> ~ none
fn() -> 'a ~ none
fn() -> -> int ~ none
(&'a W<'b, &'c int>, int) ~ row|& a|row|'b|& c|int|part|W|part|int|part|tuple|left |
";

// Types with blanks of each kind between tokens and with none, words that are longer than those of
// types, and bytes that are no tokens, in a type and after one.
const GAPS: &str = "
\tint\r ~ int|left \r|
int \t\r ~ int|left  \t\r|
intx ~ none
int_ ~ none
int'b ~ int|left 'b|
int- ~ int|left -|
int-> ~ int|left ->|
int; ~ int|left ;|
int # x ~ int|left  # x|
;int ~ none
& 'a int ~ & a|int|left |
&\t'a\rmut\t&\r'b\tT ~ mut a|& b|row|T|left |
&'a mut&'b mut T ~ mut a|mut b|row|T|left |
&'amut T ~ & amut|row|T|left |
&'a mutT ~ none
&'a mut_ T ~ none
&' a int ~ none
&'' int ~ none
&'a'b int ~ none
W<'a_1,T_0> ~ row|'a_1|row|T_0|part|W|left |
W\t<\r'a\t,\rint\t> ~ row|'a|int|part|W|left |
W<'a>> ~ row|'a|W|left >|
W<'a>-> ~ row|'a|W|left ->|
W<'a>\t< ~ none
W<'a ; > ~ none
W<'> ~ none
T\r< ~ none
T; < ~ row|T|left ; <|
(\t) ~ row|tuple|left |
(\rint\t,\rT\t) ~ row|int|part|row|T|part|tuple|left |
(int#) ~ none
fn()->int ~ row|int|fn|left |
fn\t(\r)\t->\rint ~ row|int|fn|left |
fn\r(\tint\r)\t->\rT ~ row|int|part|row|T|fn|left |
fn() - > int ~ none
fn() -\t>int ~ none
fn() - int ~ none
fn() --> int ~ none
fn_() -> int ~ none
fn'a() -> int ~ none
";

// Types, and whether a function is written in them.
const FUNCTIONS: &str = "
int ~ false
() ~ false
&'a mut T ~ false
(int, W<'a, (T), int>) ~ false
t ~ none
fn() -> int ~ true
fn(int) -> &'a int ~ true
&'a fn() -> int ~ true
(int, (T, fn(int) -> int)) ~ true
(fn() -> int, int) ~ true
W<'a, &'b fn() -> int> ~ true
W<fn() -> int, 'a, int> ~ true
";

// Words, and whether they begin with a capital letter.
const CAPITALS: &[(&str, &str)] = &[
    ("W", "true"),
    ("Zz9", "true"),
    ("", "false"),
    ("w", "false"),
    ("_A", "false"),
];

// The type at the front is read, with its pieces in order, and the result says whether a function
// is written in it. A name of a struct begins with a capital letter.
#[test]
fn types_are_read(rt: HostRuntime) {
    compare_text(&rt, rt.alloc(), OfLine::Type, TYPES);
    compare_text(&rt, rt.alloc(), OfLine::Type, GAPS);
    compare_text(&rt, rt.alloc(), OfLine::Function, FUNCTIONS);
    compare_lines(&rt, rt.alloc(), OfLine::Capital, CAPITALS);
    one_type_at_most();
    a_type_has_tokens();
}
