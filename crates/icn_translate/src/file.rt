// What a file gives to its unit.
ghost use Rattle.std.specs.Prelude.{◌≡◌, ◌++◌, ◌∷◌, [], IfOk, OnOk, map};
ghost use Rattle.icn_tree.specs.TreeOf.{declaration_of};
ghost use Rattle.icn_unit.specs.PlainUnits.{Global as GlobalLine, Link as LinkLine, Invocable as InvocableLine, Procedure as ProcedureLine, Record as RecordLine};
ghost use Rattle.icn_unit.specs.UnitViews.{decl_seen, proc_seen};
ghost use Rattle.icn_translate.specs.FileUnits.{codes_in, item_text, lines_in, proc_codes, unit_decls};
ghost use Rattle.icn_translate.specs.NumbersTaken.{HasRoom, HaveRoom};
ghost use Rattle.icn_translate.specs.ProcCodes.{texts_of};

use crate::procedure::proc_code;
use icn_tree::{Bytes, Decl, DeclItem, Name};
use icn_unit::{ProcCode, UnitDecl};
use std::alloc::{AllocError, Global};

/// The codes of the procedures among declarations, in their order. An error is want of memory.
pub fn proc_codes(alloc: Global, decls: &[Decl]) -> Result<Vec<ProcCode>, AllocError>
    requires room { HaveRoom (map declaration_of decls.now) }
    ensures { IfOk result (λ codes. map proc_seen codes.items ≡ proc_codes (map declaration_of decls.now)) }
{
    let mut codes = Vec::new(alloc);
    for decl in decls {
        put_codes(&mut codes, alloc, decl)?;
    }
    Ok(codes)
}

#[tactic(auto, using(crate::proofs::DraftStarts::seen_more))]
fn put_codes(codes: &mut Vec<ProcCode>, alloc: Global, decl: &Decl) -> Result<(), AllocError>
    requires { HasRoom (declaration_of decl.now) }
    ensures { OnOk result (map proc_seen codes.new.items ≡ map proc_seen codes.old.items
        ++ codes_in (declaration_of decl.now)) }
{
    match decl {
        Decl::Global { .. } | Decl::Link { .. } | Decl::Invocable { .. } | Decl::Record { .. } =>
            Ok(()),
        Decl::Procedure(procedure) => {
            let code = proc_code(alloc, procedure)?;
            codes.push(code)?;
            Ok(())
        }
    }
}

/// The declarations of a unit, in their order, where a file has these. A declaration of several names, files or items gives one for
/// each. An error is want of memory.
pub fn unit_decls(alloc: Global, decls: &[Decl]) -> Result<Vec<UnitDecl>, AllocError>
    ensures { IfOk result (λ lines. map decl_seen lines.items ≡ unit_decls (map declaration_of decls.now)) }
{
    let mut lines = Vec::new(alloc);
    for decl in decls {
        put_lines(&mut lines, alloc, decl)?;
    }
    Ok(lines)
}

fn put_lines(lines: &mut Vec<UnitDecl>, alloc: Global, decl: &Decl) -> Result<(), AllocError>
    ensures { OnOk result (map decl_seen lines.new.items ≡ map decl_seen lines.old.items
        ++ lines_in (declaration_of decl.now)) }
{
    match decl {
        Decl::Global { names, .. } => put_globals(lines, alloc, names),
        Decl::Link { items, .. } => put_links(lines, alloc, items),
        Decl::Invocable { items, .. } => put_invocables(lines, alloc, items),
        Decl::Record { name, fields, .. } => put_record(lines, alloc, name, fields),
        Decl::Procedure(procedure) => put_procedure(lines, alloc, &procedure.name),
    }
}

fn put_globals(lines: &mut Vec<UnitDecl>, alloc: Global, names: &[Name]) -> Result<(), AllocError>
    ensures { OnOk result (map decl_seen lines.new.items ≡ map decl_seen lines.old.items
        ++ map (λ name. GlobalLine name.text) names.now) }
{
    for name in names {
        put_global(lines, alloc, name)?;
    }
    Ok(())
}

#[tactic(auto, using(crate::proofs::DraftStarts::seen_more))]
fn put_global(lines: &mut Vec<UnitDecl>, alloc: Global, name: &Name) -> Result<(), AllocError>
    ensures { OnOk result
        (map decl_seen lines.new.items ≡ map decl_seen lines.old.items ++ GlobalLine name.now.text ∷ []) }
{
    let name = Bytes::from_slice(alloc, name.text.as_slice())?;
    lines.push(UnitDecl::Global(name))?;
    Ok(())
}

fn put_links(lines: &mut Vec<UnitDecl>, alloc: Global, items: &[DeclItem]) -> Result<(), AllocError>
    ensures { OnOk result (map decl_seen lines.new.items ≡ map decl_seen lines.old.items
        ++ map (λ item. LinkLine (item_text item)) items.now) }
{
    for item in items {
        put_link(lines, alloc, item)?;
    }
    Ok(())
}

#[tactic(auto, using(crate::proofs::DraftStarts::seen_more))]
fn put_link(lines: &mut Vec<UnitDecl>, alloc: Global, item: &DeclItem) -> Result<(), AllocError>
    ensures { OnOk result (map decl_seen lines.new.items ≡ map decl_seen lines.old.items
        ++ LinkLine (item_text item.now) ∷ []) }
{
    let text = Bytes::from_slice(alloc, item_text(item))?;
    lines.push(UnitDecl::Link(text))?;
    Ok(())
}

fn put_invocables(
    lines: &mut Vec<UnitDecl>,
    alloc: Global,
    items: &[DeclItem],
) -> Result<(), AllocError>
    ensures { OnOk result (map decl_seen lines.new.items ≡ map decl_seen lines.old.items
        ++ map (λ item. InvocableLine (item_text item)) items.now) }
{
    for item in items {
        put_invocable(lines, alloc, item)?;
    }
    Ok(())
}

#[tactic(auto, using(crate::proofs::DraftStarts::seen_more))]
fn put_invocable(
    lines: &mut Vec<UnitDecl>,
    alloc: Global,
    item: &DeclItem,
) -> Result<(), AllocError>
    ensures { OnOk result (map decl_seen lines.new.items ≡ map decl_seen lines.old.items
        ++ InvocableLine (item_text item.now) ∷ []) }
{
    let text = Bytes::from_slice(alloc, item_text(item))?;
    lines.push(UnitDecl::Invocable(text))?;
    Ok(())
}

fn item_text(item: &DeclItem) -> &[u8]
    ensures { result.now ≡ item_text item.now }
{
    match item {
        DeclItem::Identifier(name) | DeclItem::Text(name) => name.text.as_slice(),
    }
}

#[tactic(auto, using(crate::proofs::DraftStarts::seen_more))]
fn put_record(
    lines: &mut Vec<UnitDecl>,
    alloc: Global,
    name: &Name,
    fields: &[Name],
) -> Result<(), AllocError>
    ensures { OnOk result (map decl_seen lines.new.items ≡ map decl_seen lines.old.items
        ++ RecordLine name.now.text (texts_of fields.now) ∷ []) }
{
    let fields = copies(alloc, fields)?;
    let name = Bytes::from_slice(alloc, name.text.as_slice())?;
    lines.push(UnitDecl::Record(name, fields))?;
    Ok(())
}

// The texts of names.
fn copies(alloc: Global, names: &[Name]) -> Result<Vec<Bytes>, AllocError>
    ensures { IfOk result (λ texts. texts.items ≡ texts_of names.now) }
{
    let mut texts = Vec::new(alloc);
    for name in names {
        let text = Bytes::from_slice(alloc, name.text.as_slice())?;
        texts.push(text)?;
    }
    Ok(texts)
}

#[tactic(auto, using(crate::proofs::DraftStarts::seen_more))]
fn put_procedure(lines: &mut Vec<UnitDecl>, alloc: Global, name: &Name) -> Result<(), AllocError>
    ensures { OnOk result
        (map decl_seen lines.new.items ≡ map decl_seen lines.old.items ++ ProcedureLine name.now.text ∷ []) }
{
    let name = Bytes::from_slice(alloc, name.text.as_slice())?;
    lines.push(UnitDecl::Proc(name))?;
    Ok(())
}
