ghost use Rattle.std.specs.Prelude.{◌≡◌, [], ◌∷◌, None, Some, IfOk, pos, codes};
ghost use Rattle.lq_tree.specs.Formed.{IsFormed};
ghost use Rattle.lq_tree.specs.declared.plain.PKind.{While};

use lq_classes::classes;
use lq_templates::{NamePart, Template, TemplateKind, templates};
use lq_tree::{Base, CType, Name, PExpr, PFunc, PKind, PProgram, PStmt, Place, Slot};
use sqlite_items::Items;
use std::alloc::{AllocError, Global};
use std::fmt::Write;
use std::test::Fail;

// A list of one element.
fn one<T: Drop>(alloc: Global, item: T) -> Result<Items<T>, AllocError>
    ensures { IfOk result (λ items. items ≡ item ∷ []) }
{
    let mut items = Items::new(alloc);
    items.push(item)?;
    Ok(items)
}

// A list of two.
fn two<T: Drop>(alloc: Global, first: T, second: T) -> Result<Items<T>, AllocError>
    ensures { IfOk result (λ items. items ≡ first ∷ second ∷ []) }
{
    let mut items = one(alloc, first)?;
    items.push(second)?;
    Ok(items)
}

// An int behind so many stars.
fn int(stars: u8) -> CType
    ensures { result ≡ record { base = Base.Int; stars = stars } }
{
    CType {
        base: Base::Int,
        stars,
    }
}

fn slot(alloc: Global, name: &[u8], stars: u8) -> Result<Slot, AllocError>
    ensures { IfOk result (λ s. s ≡ record { name = Some name.now; ctype = record { base = Base.Int; stars = stars } }) }
{
    let name = Some(Name::from_slice(alloc, name)?);
    let ctype = int(stars);
    Ok(Slot { name, ctype })
}

fn statement(line: u32, kind: PKind) -> PStmt
    ensures { result ≡ record { at = record { line = line; col = 3 }; kind = kind } }
{
    PStmt {
        at: Place { line, col: 3 },
        kind,
    }
}

// A function that gives an int.
fn function(
    alloc: Global,
    line: u32,
    name: &[u8],
    params: u32,
    slots: Items<Slot>,
    body: Items<PStmt>,
) -> Result<PFunc, AllocError>
    ensures { IfOk result (λ f. f ≡ record { at = record { line = line; col = 1 }; name = name.now; result = Some (record { base = Base.Int; stars = 0 }); params = params; slots = slots; body = body }) }
{
    Ok(PFunc {
        at: Place { line, col: 1 },
        name: Name::from_slice(alloc, name)?,
        result: Some(int(0)),
        params,
        slots,
        body,
    })
}

// int first(int *p) { int x = *p; return x; }
fn first(alloc: Global) -> Result<PFunc, AllocError>
    ensures { IfOk result (λ f. f ≡ record {
      at = record { line = 1; col = 1 };
      name = codes "first";
      result = Some (record { base = Base.Int; stars = 0 });
      params = 1;
      slots = record { name = Some (codes "p"); ctype = record { base = Base.Int; stars = 1 } } ∷ record { name = Some (codes "x"); ctype = record { base = Base.Int; stars = 0 } } ∷ [];
      body = record { at = record { line = 2; col = 3 }; kind = PKind.Load 1 0 (PExpr.Num (pos 0)) 0 } ∷ record { at = record { line = 3; col = 3 }; kind = PKind.Return (Some (PExpr.Slot 1)) } ∷ [];
    }) }
{
    let slots = two(alloc, slot(alloc, b"p", 1)?, slot(alloc, b"x", 0)?)?;
    let load = PKind::Load(1, 0, PExpr::Num(0), 0);
    let gives = PKind::Return(Some(PExpr::Slot(1)));
    let body = two(alloc, statement(2, load), statement(3, gives))?;
    function(alloc, 1, b"first", 1, slots, body)
}

// int main(int *in, int n) { while (n) { n = first(in); } return 0; }
fn main_function(alloc: Global) -> Result<PFunc, AllocError>
    ensures { IfOk result (λ f. f ≡ record {
      at = record { line = 5; col = 1 };
      name = codes "main";
      result = Some (record { base = Base.Int; stars = 0 });
      params = 2;
      slots = record { name = Some (codes "in"); ctype = record { base = Base.Int; stars = 1 } } ∷ record { name = Some (codes "n"); ctype = record { base = Base.Int; stars = 0 } } ∷ [];
      body = record { at = record { line = 6; col = 3 }; kind = While [] (PExpr.Slot 1) (record { at = record { line = 7; col = 3 }; kind = PKind.Call (Some 1) 0 (PExpr.Slot 0 ∷ []) } ∷ []) }
          ∷ record { at = record { line = 8; col = 3 }; kind = PKind.Return (Some (PExpr.Num (pos 0))) } ∷ [];
    }) }
{
    let slots = two(alloc, slot(alloc, b"in", 1)?, slot(alloc, b"n", 0)?)?;
    let call = PKind::Call(Some(1), 0, one(alloc, PExpr::Slot(0))?);
    let turn = one(alloc, statement(7, call))?;
    let turns = PKind::While(Items::new(alloc), PExpr::Slot(1), turn);
    let gives = PKind::Return(Some(PExpr::Num(0)));
    let body = two(alloc, statement(6, turns), statement(8, gives))?;
    function(alloc, 5, b"main", 2, slots, body)
}

// The program of both, which is formed.
fn calling(alloc: Global) -> Result<PProgram, AllocError>
    ensures { IfOk result IsFormed }
{
    let funcs = two(alloc, first(alloc)?, main_function(alloc)?)?;
    Ok(PProgram {
        structs: Items::new(alloc),
        funcs,
        main: 1,
        factors: Items::new(alloc),
    })
}

// The kind of a template.
fn put_kind(text: &mut String, kind: TemplateKind) -> Result<(), Fail> {
    match kind {
        TemplateKind::Rec { class } => write!(text, "record {class}")?,
        TemplateKind::Pre { func } => write!(text, "pre {func}")?,
        TemplateKind::Post { func } => write!(text, "post {func}")?,
        TemplateKind::Join => write!(text, "join")?,
        TemplateKind::Loop => write!(text, "loop")?,
        TemplateKind::Effect {
            scope,
            class,
            field,
            write,
        } => {
            let kind = if write { "write" } else { "read" };
            write!(text, "{} {} {kind} {class} {field}", scope.scope, scope.at)?;
        }
    }
    Ok(())
}

// The names of a template: `off` or `len` before those of a pointer, and a `!` behind one that changes.
fn put_names(text: &mut String, template: &Template) -> Result<(), Fail> {
    for named in template.names.as_slice() {
        let part = match named.part {
            NamePart::Value => "",
            NamePart::Off => "off ",
            NamePart::Len => "len ",
        };
        let mark = if named.changed { "!" } else { "" };
        let name = str::from_utf8(named.text.as_bytes())?;
        write!(text, "; {part}{name}{mark}")?;
    }
    Ok(())
}

// Templates, a line each.
fn text_of(alloc: Global, templates: &[Template]) -> Result<String, Fail> {
    let mut text = String::new(alloc);
    for template in templates {
        put_kind(&mut text, template.kind)?;
        put_names(&mut text, template)?;
        text.push('\n')?;
    }
    Ok(text)
}

const OF_CALLING: &str = "record 1; .word
pre 0; off p; len p
post 0; off p; len p; result
0 1:1 read 1 0; @; off p; len p
1 5:1 read 1 0; @; off in; len in; n
loop; off in; len in; n!
";

#[test]
fn lists_the_templates_of_a_call(rt: HostRuntime) -> Result<(), Fail> {
    let program = calling(rt.alloc())?;
    let found = templates(rt.alloc(), &program, &classes(rt.alloc(), &program)?)?;
    let text = text_of(rt.alloc(), found.as_slice())?;
    assert!(rt; text.as_str() == OF_CALLING);
    Ok(())
}
