//! Statements that change registers and storage alone, or only leave their block.
ghost use Rattle.std.specs.Prelude.{ℕ};
ghost use Rattle.script_tree.specs.Tree.{Tree};
ghost use Rattle.script_tree.specs.WellFormed.{StmtFits};
ghost use Rattle.fiber_body.specs.Shown.{IsChanged};
ghost use Rattle.fiber_body.specs.Statements.{result as result_of};

use crate::body::Body;
use crate::standing::Exit;
use pic_base::Value;
use script_tree::Stmt;

/// The code that is raised where a result is no number of a script.
const OVERFLOW: Value = 2;

impl Body {
    /// Makes what the statement makes of registers and storage alone, and answers how it ends. Of any other
    /// statement nothing is made, and the answer is None: it makes an entry or has a block, or no run serves
    /// it yet.
    pub fn change(&mut self, stmt: &Stmt) -> Option<Exit>
        requires { (tree : Tree) × (holder : ℕ) × StmtFits tree holder stmt.now }
        ensures { IsChanged (result_of self.old.context.registers self.old.context.cells stmt.now) self.old self.new result }
    {
        match stmt {
            Stmt::Set(register, operand) => {
                self.content.registers[*register as usize] = self.value(*operand);
            }
            Stmt::Add(register, operand) => {
                let Some(sum) = self.register(*register).checked_add(self.value(*operand)) else {
                    return Some(Exit::Raised(OVERFLOW));
                };
                self.content.registers[*register as usize] = sum;
            }
            Stmt::Sub(register, operand) => {
                let Some(rest) = self.register(*register).checked_sub(self.value(*operand)) else {
                    return Some(Exit::Raised(OVERFLOW));
                };
                self.content.registers[*register as usize] = rest;
            }
            Stmt::Mul(register, operand) => {
                let Some(product) = self.register(*register).checked_mul(self.value(*operand))
                else {
                    return Some(Exit::Raised(OVERFLOW));
                };
                self.content.registers[*register as usize] = product;
            }
            Stmt::Put(key, operand) => {
                self.content.cells[*key as usize] = self.value(*operand);
            }
            Stmt::Get(register, key) => {
                self.content.registers[*register as usize] = self.content.cells[*key as usize];
            }
            Stmt::Raise(operand) => return Some(Exit::Raised(self.value(*operand))),
            Stmt::Break => return Some(Exit::Broke),
            _ => return None,
        }
        Some(Exit::Next)
    }
}
