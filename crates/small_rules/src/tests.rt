use crate::is_small;
use pv_ast::{
    Block, Class, Contract, Expr, ExprKind, Member, Method, Operator, Param, Program, PvType,
    Right, RightKind, Stmt, StmtKind, TypeWord, Word,
};
use pv_base::{Name, NoMemory, Span};
use sqlite_items::{Boxed, Items};
use std::alloc::Global;
use std::test::Fail;

const HERE: Span = Span { from: 0, to: 1 };

const PARAMETER: u32 = 2;

const LOCAL: u32 = 3;

const INNER: u32 = 4;

fn word(number: u32) -> Word {
    Word {
        name: Name(number),
        span: HERE,
    }
}

fn int() -> TypeWord {
    TypeWord {
        kind: PvType::Int,
        span: HERE,
    }
}

fn expression(kind: ExprKind) -> Expr {
    Expr { span: HERE, kind }
}

fn variable(number: u32) -> Expr {
    expression(ExprKind::Var(word(number)))
}

fn statement(kind: StmtKind) -> Stmt {
    Stmt { span: HERE, kind }
}

fn declaration(number: u32, value: Expr) -> Stmt {
    let right = Right {
        span: HERE,
        kind: RightKind::Value(value),
    };
    statement(StmtKind::Local(int(), word(number), Some(right)))
}

fn binary(alloc: Global, operator: Operator, a: Expr, b: Expr) -> Result<Expr, NoMemory> {
    let a = Boxed::new(alloc, a)?;
    let b = Boxed::new(alloc, b)?;
    Ok(expression(ExprKind::Binary(operator, a, b)))
}

// `int y = x + 1; if (y == x) { int z = y; } else {} return e;`
fn body(alloc: Global, returned: Expr) -> Result<Block, NoMemory> {
    let one = expression(ExprKind::Number(1));
    let sum = binary(alloc, Operator::Add, variable(PARAMETER), one)?;
    let condition = binary(alloc, Operator::Eq, variable(LOCAL), variable(PARAMETER))?;
    let mut branch = Items::new(alloc);
    branch.push(declaration(INNER, variable(LOCAL)))?;
    let mut block = Items::new(alloc);
    block.push(declaration(LOCAL, sum))?;
    block.push(statement(StmtKind::If(condition, branch, Items::new(alloc))))?;
    block.push(statement(StmtKind::Return(Some(returned))))?;
    Ok(block)
}

// A class with one method, which returns the expression.
fn class(alloc: Global, returned: Expr) -> Result<Class, NoMemory> {
    let mut params = Items::new(alloc);
    params.push(Param {
        name: word(PARAMETER),
        kind: int(),
    })?;
    let method = Method {
        span: HERE,
        name: word(1),
        result: Some(int()),
        params,
        contract: Contract {
            clauses: Items::new(alloc),
        },
        body: body(alloc, returned)?,
    };
    let mut members = Items::new(alloc);
    members.push(Member::Method(method))?;
    Ok(Class {
        span: HERE,
        name: word(0),
        lock_invariant: None,
        members,
    })
}

#[test]
fn programs_of_methods_are_small(rt: HostRuntime) -> Result<(), Fail> {
    let alloc = rt.alloc();
    let mut program = Program {
        classes: Items::new(alloc),
        length: None,
    };
    assert!(rt; is_small(&program));
    program.classes.push(class(alloc, variable(LOCAL))?)?;
    assert!(rt; is_small(&program));
    program.classes.push(class(alloc, variable(PARAMETER))?)?;
    assert!(rt; is_small(&program));
    Ok(())
}

#[test]
fn sums_of_variables_are_not_small(rt: HostRuntime) -> Result<(), Fail> {
    let alloc = rt.alloc();
    let mut program = Program {
        classes: Items::new(alloc),
        length: None,
    };
    program.classes.push(class(alloc, variable(LOCAL))?)?;
    let sum = binary(alloc, Operator::Add, variable(LOCAL), variable(PARAMETER))?;
    program.classes.push(class(alloc, sum)?)?;
    assert!(rt; !is_small(&program));
    Ok(())
}
