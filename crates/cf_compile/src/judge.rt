ghost use Rattle.std.specs.Prelude.{◌≡◌, ◌<◌, ◌≤◌, ◌++◌, ◌∷◌, ◌+◌, [], ℕ, List as Items, None, length, IfOk, OnOk, if◌then◌else◌};
ghost use Rattle.std.specs.Option.{option_to_list};
ghost use Rattle.cf_types.specs.declared.stmt.Placed.{Placed};
ghost use Rattle.cf_declare.specs.Declare.{declare};
ghost use Rattle.cf_declare.specs.Graphs.{FitsDeclared};
ghost use Rattle.cf_declare.specs.Limits.{HasFewLocators};
ghost use Rattle.config_rules.specs.Fault.{code_of, is_instance, refusal, stmts_of};
ghost use Rattle.config_rules.specs.Select.{kept};
ghost use Rattle.config_rules.specs.Written.{AreWritten};
ghost use Rattle.cf_compile.specs.Judged.{Judges, instance_at, is_judged};

use cf_declare::{Declarations, MAX_INSTANCES};
use cf_rows::file_name;
use cf_types::code::configuration as code;
use cf_types::{Instance, List, Memory, Placed, Refusal, Stmt, Text};
use std::alloc::Global;

/// What accepted statements declare, and the instances among them that no later negation takes back.
#[derive(Drop)]
pub struct Selection {
    pub declarations: Declarations,
    pub instances: List<Instance>,
}

/// What the statements of a configuration are judged to be.
#[derive(Drop)]
pub enum Verdict {
    Accepted(Selection),
    Refused(Refusal),
}

/// A code at the file and line of a statement.
pub fn refusal(
    alloc: Global,
    files: &[Text],
    statement: &Placed,
    code: u8,
) -> Result<Refusal, Memory>
    ensures { IfOk result (λ made. made ≡ refusal files.now statement.now code) }
{
    Ok(Refusal {
        file: file_name(alloc, files, statement.file)?,
        line: statement.line,
        code,
    })
}

/// Appends the instance at a place, if it survives.
#[inline(always)]
fn push_kept(
    instances: &mut List<Instance>,
    instance: Instance,
    is_kept: bool,
) -> Result<(), Memory>
    ensures { OnOk result (instances.new ≡ instances.old ++ (if is_kept then instance ∷ [] else [])) }
{
    if is_kept {
        return instances.push(instance);
    }
    Ok(())
}

/// Whether a statement may have a code, may declare something or is an instance.
#[inline(always)]
fn is_judged(stmt: &Stmt) -> bool
    ensures { result ≡ is_judged stmt.now }
{
    matches!(
        stmt,
        Stmt::Define { .. }
            | Stmt::Class { .. }
            | Stmt::DefPseudo { .. }
            | Stmt::Device { .. }
            | Stmt::Attach { .. }
            | Stmt::Inst { .. }
            | Stmt::PseudoDevice { .. }
    )
}

/// Judges a statement that may have a code, may declare something or is an instance, as `judge_statement` does.
#[inline(never)]
fn judge_any(
    alloc: Global,
    selection: &mut Selection,
    count: usize,
    place: u32,
    stmt: &Stmt,
    is_kept: bool,
) -> Result<Option<u8>, Memory>
    requires fits { FitsDeclared selection.old.declarations }
    requires few { HasFewLocators stmt.now }
    requires attrs { length selection.old.declarations.attrs < 65536 }
    requires devices { length selection.old.declarations.devices < 65536 }
    ensures code { IfOk result (λ code. code ≡ code_of selection.old.declarations count stmt.now) }
    ensures declared { IfOk result (λ code. code ≡ None → selection.new.declarations ≡ declare selection.old.declarations stmt.now) }
    ensures kept { IfOk result (λ code. code ≡ None → selection.new.instances ≡ selection.old.instances
        ++ (if is_kept then option_to_list (instance_at selection.old.declarations place stmt.now) else [])) }
{
    let Stmt::Inst {
        base,
        mark,
        at,
        pairs,
        flags,
    } = stmt
    else {
        return selection.declarations.take(alloc, stmt);
    };
    if count >= MAX_INSTANCES {
        return Ok(Some(code::TOO_MANY_INSTANCES));
    }
    match selection.declarations.join(base, at, pairs.items()) {
        Ok(joined) => {
            let instance = Instance {
                stmt: place,
                joined,
                mark: *mark,
                flags: *flags,
            };
            push_kept(&mut selection.instances, instance, is_kept)?;
            Ok(None)
        }
        Err(code) => Ok(Some(code)),
    }
}

/// The first code of a statement, given what is declared and the number of instances so far. If it has none, what it
/// declares is added, and an instance is appended if it survives. Most statements have nothing of that.
#[tactic(auto, using(crate::proofs::QuietLaws::quiet_code, crate::proofs::QuietLaws::quiet_declared, crate::proofs::QuietLaws::quiet_kept))]
#[inline(always)]
fn judge_statement(
    alloc: Global,
    selection: &mut Selection,
    count: usize,
    place: u32,
    stmt: &Stmt,
    is_kept: bool,
) -> Result<Option<u8>, Memory>
    requires fits { FitsDeclared selection.old.declarations }
    requires few { HasFewLocators stmt.now }
    requires attrs { length selection.old.declarations.attrs < 65536 }
    requires devices { length selection.old.declarations.devices < 65536 }
    ensures code { IfOk result (λ code. code ≡ code_of selection.old.declarations count stmt.now) }
    ensures declared { IfOk result (λ code. code ≡ None → selection.new.declarations ≡ declare selection.old.declarations stmt.now) }
    ensures kept { IfOk result (λ code. code ≡ None → selection.new.instances ≡ selection.old.instances
        ++ (if is_kept then option_to_list (instance_at selection.old.declarations place stmt.now) else [])) }
{
    if is_judged(stmt) {
        return judge_any(alloc, selection, count, place, stmt, is_kept);
    }
    Ok(None)
}

/// How many instances a statement is.
fn instance_count(stmt: &Stmt) -> usize
    ensures { result ≡ (if is_instance stmt.now then 1 else 0) }
{
    if matches!(stmt, Stmt::Inst { .. }) {
        1
    } else {
        0
    }
}

/// No instance, with room for those that survive.
fn room_for(alloc: Global, survive: &[bool]) -> Result<List<Instance>, Memory>
    ensures { IfOk result (λ instances. instances ≡ []) }
{
    let count = survive.iter().filter(|&&survives| survives).count();
    Ok(List::from_vec(Vec::with_capacity(alloc, count)?))
}

/// Nothing is declared, with room for what these statements declare.
fn no_declarations(alloc: Global, placed: &[Placed]) -> Result<Declarations, Memory>
    ensures { IfOk result (λ declared. declared ≡ record { attrs = []; devices = []; attaches = [] }) }
{
    let mut declarations = Declarations::make(alloc, placed);
    declarations.reserve(placed)?;
    Ok(declarations)
}

/// Judges the placed statements one after the other, each by what those before it declare, up to the first code.
pub fn judge(
    alloc: Global,
    files: &[Text],
    placed: &[Placed],
    survive: &[bool],
) -> Result<Verdict, Memory>
    requires written { AreWritten placed.now }
    requires survive { survive.now ≡ kept (stmts_of placed.now) }
    ensures { IfOk result (Judges files.now placed.now) }
{
    let instances = room_for(alloc, survive)?;
    let declarations = no_declarations(alloc, placed)?;
    let mut selection = Selection {
        declarations,
        instances,
    };
    let mut count = 0;
    for (place, statement) in placed.iter().enumerate() {
        let stmt = &statement.stmt;
        match judge_statement(
            alloc,
            &mut selection,
            count,
            place as u32,
            stmt,
            survive[place],
        ) {
            Ok(None) => {}
            Ok(Some(code)) => {
                drop(selection);
                return Ok(Verdict::Refused(refusal(alloc, files, statement, code)?));
            }
            Err(stop) => {
                drop(selection);
                return Err(stop);
            }
        }
        count += instance_count(stmt);
    }
    Ok(Verdict::Accepted(selection))
}
