//! Which programs are run so far.
ghost use Rattle.std.specs.Prelude.{◌≡◌};
ghost use Rattle.std.specs.List.{list_all};
ghost use Rattle.fiber_poll.specs.Built.{is_built, is_built_comp, is_built_kind, is_built_stmt};

use script_tree::{Block, CompRef, Decl, Kind, Program, Stmt};

/// Whether every form of the program is built: what it declares, and all its statements.
pub fn built(program: &Program) -> bool
    ensures { result ≡ is_built program.now }
{
    are_built_decls(&program.decls) && are_built_blocks(&program.blocks)
}

fn are_built_decls(decls: &[Decl]) -> bool
    ensures { result ≡ list_all (λ d. is_built_kind d.kind) decls.now }
{
    decls.iter().all(|decl| is_built_kind(decl.kind))
}

fn are_built_blocks(blocks: &[Block]) -> bool
    ensures { result ≡ list_all (λ block. list_all is_built_stmt block) blocks.now }
{
    blocks.iter().all(|block| are_built_stmts(&block.stmts))
}

fn are_built_stmts(stmts: &[Stmt]) -> bool
    ensures { result ≡ list_all is_built_stmt stmts.now }
{
    stmts.iter().all(|stmt| is_built_stmt(stmt))
}

fn is_built_kind(kind: Kind) -> bool
    ensures { result ≡ is_built_kind kind }
{
    matches!(kind, Kind::Trigger | Kind::Comp)
}

fn is_built_comp(comp: CompRef) -> bool
    ensures { result ≡ is_built_comp comp }
{
    !matches!(comp, CompRef::Promise(_))
}

fn is_built_stmt(stmt: &Stmt) -> bool
    ensures { result ≡ is_built_stmt stmt.now }
{
    match stmt {
        Stmt::Set(..) | Stmt::Add(..) | Stmt::Sub(..) | Stmt::Mul(..) => true,
        Stmt::Put(..) | Stmt::Get(..) | Stmt::Say(_) | Stmt::Spawn(..) | Stmt::Yield => true,
        Stmt::Signal(_) | Stmt::Await(_) => true,
        Stmt::Raise(_) | Stmt::Break | Stmt::If { .. } | Stmt::Loop(_) | Stmt::Try { .. } => true,
        Stmt::Check | Stmt::Forbid(_) | Stmt::Permit(_) => true,
        Stmt::Under(comp, _) => is_built_comp(*comp),
        Stmt::Return(_, comp, _) | Stmt::Cancel(_, comp, _) | Stmt::Peek(_, _, comp) => {
            is_built_comp(*comp)
        }
        Stmt::Attach(_, comp, _) | Stmt::Detach(comp, _) | Stmt::Wait(_, comp) => {
            is_built_comp(*comp)
        }
        _ => false,
    }
}
