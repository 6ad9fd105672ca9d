use form_def::Op;
use form_expr::*;
use std::alloc::Global;
use std::test::Fail;

fn syntax_of(alloc: Global, text: &str) -> Result<Syntax, Fail> {
    Ok(read_expr(alloc, text)?)
}

fn itemset_of(alloc: Global, text: &str) -> Result<Itemset, Fail> {
    Ok(read_itemset(alloc, text)?)
}

fn fault_of(alloc: Global, text: &str) -> Option<ExprFault> {
    read_expr(alloc, text).err()
}

fn itemset_fault_of(alloc: Global, text: &str) -> Option<ExprFault> {
    read_itemset(alloc, text).err()
}

#[test]
fn expressions_are_read(rt: HostRuntime) -> Result<(), Fail> {
    let syntax = syntax_of(rt.alloc(), "1 - 2 - -/a")?;
    let Syntax::Pair { op, left, right } = &syntax else {
        return Err("a difference")?;
    };
    assert_eq!(rt; *op, Op::Subtract);
    assert!(rt; matches!(left.get(), Syntax::Pair { .. }));
    assert!(rt; matches!(right.get(), Syntax::Negative(_)));
    Ok(())
}

#[test]
fn itemsets_are_read(rt: HostRuntime) -> Result<(), Fail> {
    let itemset = itemset_of(rt.alloc(), "instance('t')/root/item[a = 1]")?;
    assert_eq!(rt; itemset.table.as_str(), "t");
    assert!(rt; itemset.filter.is_some());
    Ok(())
}

#[test]
fn others_are_refused(rt: HostRuntime) -> Result<(), Fail> {
    let fault = fault_of(rt.alloc(), "1 + #");
    assert_eq!(rt; fault, Some(ExprFault::BadExpr { at: 4 }));
    let fault = itemset_fault_of(rt.alloc(), "instance('t')");
    assert_eq!(rt; fault, Some(ExprFault::BadExpr { at: 13 }));
    Ok(())
}
