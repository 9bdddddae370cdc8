//! Lines of MIR texts, by their forms.
use super::lines::OfLine;
use super::rows::Asked::Form;
use super::rows::{Row, compare_rows, compare_text};
use super::statement_text::write_statement;
use super::transcript::Transcript;
use super::written_types::{write_flag, write_pieces};
use nll_mir_grammar::{
    Line, ParameterText, StructText, Version, light_block, light_line, line_of, one_form,
};
use nll_sets::Memory;
use nll_text::{one_token_list, tokens_make_a_line};
use nll_types::{Parameter, Sign};
use std::alloc::Global;

// The marks of a parameter.
fn marks_of(parameter: &Parameter) -> &'static str {
    match (parameter.sign, parameter.may_dangle) {
        (Sign::Covariant, true) => "+? ",
        (Sign::Covariant, false) => "+ ",
        (Sign::Contravariant, true) => "-? ",
        (Sign::Contravariant, false) => "- ",
        (Sign::Invariant, true) => "=? ",
        (Sign::Invariant, false) => "= ",
    }
}

// Writes a struct.
fn write_struct(out: &mut Transcript, text: &StructText<'_>) {
    out.part("struct ", text.name);
    for parameter in text.parameters.as_slice() {
        let (before, name, marks) = match parameter {
            ParameterText::Region(name, marks) => ("'", name, marks),
            ParameterText::Type(name, marks) => ("", name, marks),
        };
        out.part(before, name);
        out.say(marks_of(marks));
    }
    out.say(if text.has_drop { "drop " } else { "" });
    write_pieces(out, text.fields.as_type());
}

// Writes a line.
fn write_line(out: &mut Transcript, line: &Line<'_>) {
    match line {
        Line::Universal(name) => out.part("universal ", name),
        Line::Outlives(longer, shorter) => {
            out.part("outlives ", longer);
            out.part("", shorter);
        }
        Line::Region(name) => out.part("region ", name),
        Line::Assert(longer, shorter) => {
            out.part("assert ", longer);
            out.part("", shorter);
        }
        Line::Struct(text) => write_struct(out, text),
        Line::Let(variable, ty) => {
            out.number("let ", *variable, " ");
            write_pieces(out, ty);
        }
        Line::Blocks(count) => out.number("blocks ", *count, ""),
        Line::Block(number) => out.number("block ", *number, ""),
        Line::At(statement) => write_statement(out, statement),
        Line::End => out.say("end"),
    }
}

/// Writes the form of a line in version 2, which has each form, and before it whether the line is
/// told at a glance.
pub fn write_form(out: &mut Transcript, line: &[u8]) {
    if light_line(line).is_some() || light_block(line).is_some() {
        out.say("light ");
    }
    match line_of(out.alloc, Version::Second, line) {
        Ok(Some(form)) => {
            write_line(out, &form);
            drop(form);
        }
        Ok(None) => out.say("none"),
        Err(_) => out.say("refused"),
    }
}

// Whether a line has a form in a version.
fn has_form(alloc: Global, version: Version, line: &[u8]) -> Result<bool, Memory> {
    match line_of(alloc, version, line)? {
        Some(form) => {
            drop(form);
            Ok(true)
        }
        None => Ok(false),
    }
}

/// Writes whether a line has a form in version 1, and in version 2.
pub fn write_version_flag(out: &mut Transcript, line: &[u8]) {
    let first = has_form(out.alloc, Version::First, line);
    let second = has_form(out.alloc, Version::Second, line);
    write_flag(out, first);
    out.say(" ");
    write_flag(out, second);
}

// Lines, and their forms.
const LINES: &str = "
 ~ none
universal 'a ~ universal a|
universal a ~ none
outlives 'a 'b ~ outlives a|b|
outlives 'a ~ none
region 'x ~ region x|
region 'x 'y ~ none
assert 'x : 'y ~ assert x|y|
assert'x:'x ~ assert x|x|
assert 'x 'y ~ none
assert 'x : ~ none
assert 'x : 'y 'z ~ none
assert x : 'y ~ none
struct W() ~ struct W|row|tuple|
struct F<'x - >(fn(&'x int) -> int) ~ struct F|'x|- row|row|& x|int|part|int|fn|part|tuple|
struct F<'x - ?, T -?, 'y +>() ~ struct F|'x|-? T|-? 'y|+ row|tuple|
struct F<'x ->() ~ none
struct W<'x + ?, T => drop (&'x int, T) ~ struct W|'x|+? T|= drop row|& x|int|part|row|T|part|tuple|
struct W<> () ~ none
struct W int ~ none
struct w() ~ none
let _3: &'p int ~ let 3 & p|int|
let 3: int ~ none
blocks 3 ~ blocks 3
blocks 03 ~ none
block bb0 ~ light block 0
block 0 ~ none
_3 = copy _1.*.2 ~ _3 = copy _1.*.2
_3.0 = const ~ _3.0 = const
_3 = _1 ~ none
_3 = &'r _1.* ~ _3 = & r|_1.*
_3 = &'r mut _1 ~ _3 = mut r|_1
_3 = & mut _1 ~ none
_3 = make (T, int) (const, move _2.0) ~ _3 = make row|row|T|part|int|part|tuple|const,move _2.0,
_3 = make () ~ none
read _3.* ~ read _3.*
read _3.- ~ none
live _1 ~ light live 1
live _1.0 ~ none
dead _1 ~ light dead 1
dead ~ none
nop ~ light nop
nop nop ~ none
goto bb2 ~ goto 2
goto 2 ~ none
switch copy _2 bb1 bb2 ~ switch copy _2 [1, 2]
switch copy _2 ~ none
drop _1 -> bb1 ~ drop 1 to 1
drop _1 -> bb1 unwind bb2 ~ drop 1 to 1 or 2
drop _1 bb1 ~ none
_2 = call call(copy _1: &'c int, const: int): &'c int -> bb1 \
~ _2 = call copy _1: & c|int|,const: int|,: & c|int| to 1
_2.0 = call f(): int where 'a: 'b, 'c: 'd -> bb1 unwind bb2 \
~ _2.0 = call : int| a|b| c|d| to 1 or 2
_2 = call f(): int where -> bb1 ~ none
_2 = call f(const): int -> bb1 ~ none
return ~ return
return _0 ~ none
stop ~ stop
stop bb1 ~ none
end ~ end
end end ~ none
";

// Lines with numbers, of which some aren't written as they are printed, or have ten digits.
const NUMBERS: &str = "
blocks 0 ~ blocks 0
blocks 10 ~ blocks 10
blocks 100000000 ~ blocks 100000000
blocks 999999999 ~ blocks 999999999
blocks 1000000000 ~ none
blocks 00 ~ none
blocks 01 ~ none
blocks 1_0 ~ none
blocks +1 ~ none
blocks 1a ~ none
live _999999999 ~ light live 999999999
live _1000000000 ~ none
live _ ~ none
live _00 ~ none
goto bb999999999 ~ goto 999999999
goto bb1000000000 ~ none
goto bb ~ none
goto bb01 ~ none
blocks 123456789 ~ blocks 123456789
blocks 1234567890 ~ none
blocks 0123456789 ~ none
blocks 000000000 ~ none
blocks 99999999x ~ none
blocks 999999999x ~ none
blocks 999999999_ ~ none
blocks 999999999'a ~ none
blocks 999999999; ~ none
live _0 ~ light live 0
live _007 ~ none
live _7_ ~ none
live _7x ~ none
live _x7 ~ none
live __7 ~ none
live _ 7 ~ none
live 7_ ~ none
goto bb0 ~ goto 0
goto bb00 ~ none
goto bb1x ~ none
goto bb_1 ~ none
goto bb 1 ~ none
goto bbb1 ~ none
goto b1 ~ none
goto BB1 ~ none
read _1.0 ~ read _1.0
read _1.01 ~ none
read _1.0x ~ none
read _1._0 ~ none
read _1.999999999 ~ read _1.999999999
read _1.1000000000 ~ none
_01 = const ~ none
_1.00 = const ~ none
switch const bb1 bb1x ~ none
drop _1 -> bb1 unwind bb02 ~ none
";

// Lines with blanks of each kind between tokens, and with none. A word ends at no other word's
// byte, a `-` and a `>` with a blank between them are no arrow, and a `->` is no `-` and `>`.
const GAPS: &str = "
 nop \t\r ~ nop
\rreturn\t ~ return
end\r ~ end
\tuniversal\r'a ~ universal a|
universal'a ~ universal a|
outlives\t'a\r'b ~ outlives a|b|
outlives'a'b ~ outlives a|b|
outlives'ab ~ none
region\r'x ~ region x|
assert\t'x\r:\t'y ~ assert x|y|
assert'x:'y ~ assert x|y|
struct\tF\r<\t'x\r-\t?\r,\tT\r-\t>\r(\tfn\r(\t)\r->\tint\r) ~ \
struct F|'x|-? T|- row|row|int|fn|part|tuple|
struct F<'x-?,T- >(fn()->int) ~ struct F|'x|-? T|- row|row|int|fn|part|tuple|
struct F<'x->(int) ~ none
struct F<'x -\t>() ~ struct F|'x|- row|tuple|
struct W<'a=?,T+>drop() ~ struct W|'a|=? T|+ drop row|tuple|
struct W<T=>\tdrop\r() ~ struct W|T|= drop row|tuple|
struct W drop() ~ struct W|drop row|tuple|
struct Wdrop() ~ struct Wdrop|row|tuple|
struct W dropped() ~ none
structW() ~ none
let\t_3\r:\t&\r'p\tint ~ let 3 & p|int|
let _3:&'p int ~ let 3 & p|int|
let_3: int ~ none
blocks\t3\r ~ blocks 3
blocks3 ~ none
block\rbb0 ~ light block 0
blockbb0 ~ none
_3\t.\r0\t.\r*\t=\rmove\t_1\r.\t* ~ _3.0.* = move _1.*
_3.0.*=move _1.* ~ _3.0.* = move _1.*
_3=copy _1.*.2 ~ _3 = copy _1.*.2
_3=copy_1 ~ none
_3=constant ~ none
_3=&'r mut _1.* ~ _3 = mut r|_1.*
_3\t=\r&\t'r\rmut\t_1 ~ _3 = mut r|_1
_3=&'r _1 ~ _3 = & r|_1
_3=&'r_1 ~ none
_3=&'r mut_1 ~ none
_3=make(T,int)(const,move _2.0) ~ _3 = make row|row|T|part|int|part|tuple|const,move _2.0,
_3=make\t(\rT\t)\r(\tconst\r,\tmove\r_2\t.\r0\t) ~ _3 = make row|row|T|part|tuple|const,move _2.0,
_3=make()() ~ _3 = make row|tuple|
read\t_3\r.\t* ~ read _3.*
read_3 ~ none
live\t_1 ~ light live 1
live_1 ~ none
dead\r_1 ~ light dead 1
goto\tbb2 ~ goto 2
gotobb2 ~ none
switch\tcopy\r_2\tbb1\rbb2 ~ switch copy _2 [1, 2]
switch copy _2bb1 ~ none
switch copy _2.0bb1 ~ none
switch const bb1bb2 ~ none
switch const\tbb1 ~ switch const [1]
drop _1->bb1 ~ drop 1 to 1
drop\t_1\r->\tbb1\runwind\tbb2 ~ drop 1 to 1 or 2
drop _1->bb1unwind bb2 ~ none
drop _1 - > bb1 ~ none
drop _1 -\t> bb1 ~ none
drop _1 - bb1 ~ none
drop _1 > bb1 ~ none
drop _1 --> bb1 ~ none
drop _1 ->> bb1 ~ none
_2=call f(copy _1:&'c int,const:int):&'c int->bb1 \
~ _2 = call copy _1: & c|int|,const: int|,: & c|int| to 1
_2\t=\rcall\tf\r(\tconst\r:\tint\r)\t:\rint\twhere\r'a\t:\r'b\t,\r'c\t:\r'd\t->\rbb1\tunwind\rbb2 \
~ _2 = call const: int|,: int| a|b| c|d| to 1 or 2
_2=call f():int where'a:'b,'c:'d->bb1 unwind bb2 \
~ _2 = call : int| a|b| c|d| to 1 or 2
_2 = call f(): int - > bb1 ~ none
_2 = callf(): int -> bb1 ~ none
_2 = call 'f(): int -> bb1 ~ none
";

// Lines with bytes that are no tokens: a `'` with no name after it, signs of no form, and remarks.
const STRAYS: &str = "
# nop ~ none
nop # x ~ none
nop #x ~ none
nop# ~ none
end # ~ none
nop; ~ none
;nop ~ none
nop; nop ~ none
nop\0 ~ none
nop\x0b ~ none
nop\x0c ~ none
\u{feff}nop ~ none
nop\u{a0} ~ none
nop \u{e9} ~ none
nop ' ~ none
nop'x ~ none
universal ' ~ none
universal ' a ~ none
universal '' ~ none
universal ''a ~ none
universal '-a ~ none
universal 'a' ~ none
universal 'a; ~ none
universal 'a - ~ none
outlives 'a ' ~ none
outlives 'a;'b ~ none
region 'x # x ~ none
assert 'x ; 'y ~ none
assert 'x : 'y; ~ none
struct W()# ~ none
struct W<'a +;>() ~ none
let _1: int; ~ none
let _1; int ~ none
blocks 3$ ~ none
block bb0' ~ none
_3 = const; ~ none
_3 = &'r _1; ~ none
_3 = make () () # x ~ none
_3 = make () (const;) ~ none
read _3. ~ none
read _3.*; ~ none
read _3.; ~ none
live _1! ~ none
goto bb2 # x ~ none
switch const bb1; ~ none
switch const bb1; bb2 ~ none
drop _1 -> bb1; ~ none
drop _1 -> bb1 unwind bb2 # x ~ none
_2 = call f(): int -> bb1 # x ~ none
_2 = call f;(): int -> bb1 ~ none
return; ~ none
";

// Lines with bytes that are no text.
const BROKEN: &[Row] = &[
    ("behind a word", Form(b"nop\xff"), "none"),
    ("behind a blank", Form(b"nop \xe9"), "none"),
    ("behind a name", Form(b"universal 'a\xc3"), "none"),
    ("in a name", Form(b"universal 'a\xe9b"), "none"),
    ("as a name", Form(b"universal '\xe9"), "none"),
    ("behind an operand", Form(b"_3 = const\x80"), "none"),
    ("behind a number", Form(b"blocks 3\xff"), "none"),
    ("behind a type", Form(b"let _1: int\xff"), "none"),
    ("in front", Form(b"\xffnop"), "none"),
    ("nowhere", Form(b"universal 'a\r"), "universal a|"),
];

// Lines, and whether they may be in a text of version 1, and of version 2.
const VERSIONS: &str = "
universal 'a ~ true true
assert 'x : 'y ~ false true
struct W<'x + ?, T => drop (&'x int, T) ~ true true
struct W<'x - >() ~ false true
struct W<'x +, T -?>(int) ~ false true
struct W<'x +>(int, fn() -> int) ~ false true
let _3: &'p int ~ true true
let _3: &'p fn(int) -> int ~ false true
_3 = make (T, int) (const, move _2.0) ~ true true
_3 = make (fn() -> int, int) (const, const) ~ false true
_2 = call f(const: int): int -> bb1 ~ true true
_2 = call f(const: int, const: fn() -> int): int -> bb1 ~ false true
_2 = call f(const: int): fn() -> int -> bb1 ~ false true
return ~ true true
end ~ true true
end end ~ false false
";

// A line has one of the forms, or none; which of them are forms of version 1.
#[test]
fn lines_have_forms(rt: HostRuntime) {
    compare_text(&rt, rt.alloc(), OfLine::Form, LINES);
    compare_text(&rt, rt.alloc(), OfLine::Form, NUMBERS);
    compare_text(&rt, rt.alloc(), OfLine::Form, GAPS);
    compare_text(&rt, rt.alloc(), OfLine::Form, STRAYS);
    compare_rows(&rt, rt.alloc(), BROKEN);
    compare_text(&rt, rt.alloc(), OfLine::First, VERSIONS);
    one_form();
    one_token_list();
    tokens_make_a_line();
}
