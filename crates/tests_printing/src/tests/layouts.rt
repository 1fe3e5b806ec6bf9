//! Texts with their layouts. Each layout is also its own layout, so it is parsed to the file that was laid out.

use dscript_ast::Form;
use dscript_print_format::{LayoutFault, lay_out};
use std::alloc::Global;
use std::test::Fail;

const PROJECTS: &[(&str, &str)] = &[
    ("", ""),
    (
        "const x = Transformer.writeAllText({outputPath: p`out/a.txt`, text: \"hi\"});\n",
        "const x = Transformer.writeAllText({outputPath: p`out/a.txt`, text: \"hi\"});\n",
    ),
    (";", ";\n"),
    ("import * as a from \"m\";", "import * as a from \"m\";\n"),
    ("import {} from 'm';", "import {} from \"m\";\n"),
    (
        "import {a, b as c,} from \"m\";",
        "import {a, b as c} from \"m\";\n",
    ),
    ("export const a: A = 0x10;", "export const a: A = 16;\n"),
    (
        "@@public export const a = \"\\\\\\\"'\";",
        "@@public export const a = \"\\\\\\\"'\";\n",
    ),
    ("function f() {}", "function f() {}\n"),
    (
        "function f<A, B>(a, b?: A,): B { return a; }",
        "function f<A, B>(a, b?: A): B {\n    return a;\n}\n",
    ),
    (
        "namespace a.b { export const c = 1; namespace d {} }",
        "namespace a.b {\n    export const c = 1;\n    namespace d {}\n}\n",
    ),
    ("interface I {}", "interface I {}\n"),
    (
        "interface I<A> extends B, C<A> { a: A; b?: B, for?: 1 }",
        "interface I<A> extends B, C<A> {\n    a: A;\n    b?: B;\n    for?: 1;\n}\n",
    ),
    (
        "interface I { if: A; else?(a: A, b?: B,): C, m(): () => D }",
        "interface I {\n    if: A;\n    else?(a: A, b?: B): C;\n    m(): () => D;\n}\n",
    ),
    (
        "type A = B.C<D, E[]>[][] | \"s\" | 1 | undefined | true | false;",
        "type A = B.C<D, E[]>[][] | \"s\" | 1 | undefined | true | false;\n",
    ),
    ("type A<B> = (B | C)[];", "type A<B> = (B | C)[];\n"),
    ("type A = (() => B) | C;", "type A = (() => B) | C;\n"),
    (
        "type A = (a: A, b?: {c: D},) => B | C;",
        "type A = (a: A, b?: {c: D;}) => B | C;\n",
    ),
    ("type A = ((a: A) => B)[];", "type A = ((a: A) => B)[];\n"),
    ("const a = b => c;", "const a = b => c;\n"),
    ("const a = (b) => c;", "const a = (b) => c;\n"),
    ("const a = (b?, c: D) => e;", "const a = (b?, c: D) => e;\n"),
    ("const a = () => {};", "const a = () => {};\n"),
    ("const a = () => ({});", "const a = () => ({});\n"),
    (
        "const a = (b, c?: D,) => { return b; };",
        "const a = (b, c?: D) => {\n    return b;\n};\n",
    ),
    (
        "const a = b ? c : (d ? e : f);",
        "const a = b ? c : d ? e : f;\n",
    ),
    (
        "const a = (b ? c : d) ? e : f;",
        "const a = (b ? c : d) ? e : f;\n",
    ),
    (
        "const a = b || c && d === e !== f < g <= h > i >= j + k - l * m;",
        "const a = b || c && d === e !== f < g <= h > i >= j + k - l * m;\n",
    ),
    (
        "const a = (b || c) && ((d === e) < f);",
        "const a = (b || c) && (d === e) < f;\n",
    ),
    (
        "const a = b - (c - d) - (e * (f + g));",
        "const a = b - (c - d) - e * (f + g);\n",
    ),
    ("const a = - - -b;", "const a = - - -b;\n"),
    (
        "const a = !-!b.c[d](e, f,)(g);",
        "const a = !-!b.c[d](e, f)(g);\n",
    ),
    ("const a = (-b).c;", "const a = (-b).c;\n"),
    ("const a = -(-b);", "const a = -(-b);\n"),
    ("const a = (b => c)(d);", "const a = (b => c)(d);\n"),
    ("const a = [b, ...c, [], ];", "const a = [b, ...c, []];\n"),
    (
        "const a = {b: c, 'd': e, f, ...g, if: 1, };",
        "const a = {b: c, \"d\": e, f, ...g, if: 1};\n",
    ),
    (
        "const a = `x${ b }y${`z${c}`}`;",
        "const a = `x${b}y${`z${c}`}`;\n",
    ),
    (
        "const a = [p`s`, f`${b}`, d`x${c}y`, r`\\\\`, a``];",
        "const a = [p`s`, f`${b}`, d`x${c}y`, r`\\\\`, a``];\n",
    ),
    (
        "const a = `${ {b: `${ {} }`} }`;",
        "const a = `${{b: `${{}}`}}`;\n",
    ),
    ("const a = '\\n';", "const a = \"\\n\";\n"),
    ("const a = ((((b))));", "const a = b;\n"),
    (
        "function f() { const a: A = 1; let b; let c: C; let d = 2; e = f; g(h); }",
        "function f() {\n    const a: A = 1;\n    let b;\n    let c: C;\n    let d = 2;\n    e = f;\n    g(h);\n}\n",
    ),
    (
        "function f() { if (a) b; if (c) d; else e; }",
        "function f() {\n    if (a) b;\n    if (c) d; else e;\n}\n",
    ),
    (
        "function f() { if (a) if (b) c; else d; }",
        "function f() {\n    if (a) if (b) c; else d;\n}\n",
    ),
    (
        "function f() { if (a) { if (b) c; } else d; }",
        "function f() {\n    if (a) {\n        if (b) c;\n    } else d;\n}\n",
    ),
    (
        "function f() { for (const a of b) {} for (let c of d) for (const e of f) g; }",
        "function f() {\n    for (const a of b) {}\n    for (let c of d) for (const e of f) g;\n}\n",
    ),
    (
        "function f() { return; return a; return {}; ; {} { ; } ({}); ({}).a; }",
        "function f() {\n    return;\n    return a;\n    return {};\n    ;\n    {}\n    {\n        ;\n    }\n    ({});\n    ({}).a;\n}\n",
    ),
    (
        "export function f() { return; {} } ;",
        "export function f() {\n    return;\n    {}\n}\n;\n",
    ),
    (
        "const a = 1; ; const b = 2;",
        "const a = 1;\n;\nconst b = 2;\n",
    ),
];

/// Values, each with a text in which its operands are in parentheses. Both texts are laid out as the first.
const READINGS: &[(&str, &str)] = &[
    ("a || b || c", "(a) || (b) || (c)"),
    ("(a || b) || c", "((a) || (b)) || (c)"),
    ("a && b && c", "(a) && (b) && (c)"),
    ("a && (b && c)", "(a) && ((b) && (c))"),
    ("a === b !== c", "(a) === (b) !== (c)"),
    ("(a === b) !== c", "((a) === (b)) !== (c)"),
    ("a < b <= c > d >= e", "(a) < (b) <= (c) > (d) >= (e)"),
    ("a <= (b > c)", "(a) <= ((b) > (c))"),
    ("a - b + c", "(a) - (b) + (c)"),
    ("(a - b) + c", "((a) - (b)) + (c)"),
    ("a - (b + c)", "(a) - ((b) + (c))"),
    ("a * b * c", "(a) * (b) * (c)"),
    ("(a * b) * c", "((a) * (b)) * (c)"),
    ("a || b ? c : d || e", "((a) || (b)) ? (c) : ((d) || (e))"),
    ("(a ? b : c) || d", "((a) ? (b) : (c)) || (d)"),
    ("a && b || c && d", "((a) && (b)) || ((c) && (d))"),
    ("a && (b || c) && d", "(a) && ((b) || (c)) && (d)"),
    ("a === b && c !== d", "((a) === (b)) && ((c) !== (d))"),
    ("a === (b && c) !== d", "(a) === ((b) && (c)) !== (d)"),
    ("a < b === c >= d", "((a) < (b)) === ((c) >= (d))"),
    ("a < (b === c) >= d", "(a) < ((b) === (c)) >= (d)"),
    ("a + b < c - d", "((a) + (b)) < ((c) - (d))"),
    ("a + (b < c) - d", "(a) + ((b) < (c)) - (d)"),
    ("a * b + c * d", "((a) * (b)) + ((c) * (d))"),
    ("a * (b + c) * d", "(a) * ((b) + (c)) * (d)"),
    ("-a * !b", "(-(a)) * (!(b))"),
    ("-(a * b)", "-((a) * (b))"),
    ("!-a", "!-(a)"),
    ("!(-a)", "!(-(a))"),
    ("-a.b", "-((a).b)"),
    ("(-a).b", "(-(a)).b"),
    ("a.b[c](d, e).f", "(a).b[(c)]((d), (e)).f"),
    ("(a.b)(c)", "((a).b)((c))"),
    ("a ? b : c ? d : e", "(a) ? (b) : ((c) ? (d) : (e))"),
    ("a ? b ? c : d : e", "(a) ? ((b) ? (c) : (d)) : (e)"),
    ("(a ? b : c) ? d : e", "((a) ? (b) : (c)) ? (d) : (e)"),
    ("a => b => c", "a => (b => (c))"),
    ("a => b ? c : d", "a => ((b) ? (c) : (d))"),
    ("a ? b => c : d => e", "(a) ? (b => (c)) : (d => (e))"),
    ("(a => b) ? c : d", "((a => (b))) ? (c) : (d)"),
    ("(a => b)(c)", "((a => (b)))((c))"),
    ("a => ({})", "a => (({}))"),
    ("a => ({}).b + c", "a => (((({})).b) + (c))"),
    ("a => -{}", "a => (-({}))"),
    ("{a: b => c, ...d + e}", "({a: (b => (c)), ...((d) + (e))})"),
    (
        "[...a + b, c ? d : e]",
        "([...((a) + (b)), ((c) ? (d) : (e))])",
    ),
    ("`${a + b}`", "(`${((a) + (b))}`)"),
];

/// Whether a text is laid out as this one.
fn is_laid_as(alloc: Global, text: &str, form: Form, expected: &str) -> Result<bool, Fail> {
    if text.len() > 1000 {
        return Err(Fail::new("a text too long for this test"));
    }
    let laid = lay_out(alloc, text.as_bytes(), form)?;
    Ok(laid.as_slice() == expected.as_bytes())
}

/// Why a text is not laid out.
fn refusal(alloc: Global, text: &str) -> Result<LayoutFault, Fail> {
    if text.len() > 1000 {
        return Err(Fail::new("a text too long for this test"));
    }
    match lay_out(alloc, text.as_bytes(), Form::Project) {
        Ok(_) => Err(Fail::new("a text that is laid out")),
        Err(fault) => Ok(fault),
    }
}

#[test]
fn projects_are_laid_out_once(rt: HostRuntime) -> Result<(), Fail> {
    for (text, expected) in PROJECTS {
        assert!(rt;
            is_laid_as(rt.alloc(), text, Form::Project, expected)?,
            "of {text}"
        );
        assert!(rt;
            is_laid_as(rt.alloc(), expected, Form::Project, expected)?,
            "of {expected}"
        );
    }
    Ok(())
}

/// Whether a configuration of a value with more parentheses is laid out as that of the value, and that as it is.
fn are_read_alike(alloc: Global, value: &str, enclosed: &str) -> Result<bool, Fail> {
    let expected = format!(in alloc; "config({value});\n")?;
    let text = format!(in alloc; "config({enclosed});\n")?;
    let once = is_laid_as(alloc, &text, Form::Config, &expected)?;
    let twice = is_laid_as(alloc, &expected, Form::Config, &expected)?;
    Ok(once && twice)
}

#[test]
fn operands_in_parentheses_are_read_alike(rt: HostRuntime) -> Result<(), Fail> {
    for (value, enclosed) in READINGS {
        assert!(rt; are_read_alike(rt.alloc(), value, enclosed)?, "of {value}");
    }
    Ok(())
}

/// Texts of the other forms, and what each is laid out as.
const OTHERS: &[(Form, &str, &str)] = &[
    (
        Form::Config,
        "config({a: [f`b`], });",
        "config({a: [f`b`]});\n",
    ),
    (
        Form::Module,
        "module(config ? 1 : 2);",
        "module(config ? 1 : 2);\n",
    ),
];

#[test]
fn configurations_are_laid_out_and_others_refused(rt: HostRuntime) -> Result<(), Fail> {
    for (form, text, expected) in OTHERS {
        assert!(rt; is_laid_as(rt.alloc(), text, *form, expected)?, "of {text}");
    }
    assert_eq!(rt; refusal(rt.alloc(), ";`${1")?, LayoutFault::Lex { at: 5 });
    assert_eq!(rt;
        refusal(rt.alloc(), "; ; x = 1;")?,
        LayoutFault::Syntax { at: 2 }
    );
    Ok(())
}
