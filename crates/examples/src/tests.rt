// The worked examples, run.
use changeover::{Bound, Gaps, LeastGap, Multiples, Numbers, ShortestWalk, Zeros};
use matrix::{MatrixRefusal, check_matrix};
use std::test::Fail;
use theta::{Node, ThetaNode, tree};
use theta_lambda::grey_root;

static ROWS: [u16; 16] = [0, 3, 4, 3, 6, 0, 2, 5, 4, 7, 0, 2, 4, 7, 8, 0];

// What was answered, where it is no refusal.
fn granted<T, E: Drop>(answer: Result<T, E>) -> Result<T, Fail> {
    match answer {
        Ok(value) => Ok(value),
        Err(_) => Err(Fail::new("refused")),
    }
}

// The gaps between so many jobs, row by row.
fn gaps_of(jobs: usize, rows: &[u16]) -> Result<Gaps, Fail> {
    let Some(mut gaps) = Gaps::new(jobs) else {
        return Err(Fail::new("too many jobs"));
    };
    if jobs == 0 {
        return Err(Fail::new("no jobs"));
    }
    for (k, minutes) in rows.iter().enumerate() {
        granted(gaps.set_gap(k / jobs, k % jobs, *minutes))?;
    }
    Ok(gaps)
}

#[test]
fn walk_numbers(rt: HostRuntime) -> Result<(), Fail> {
    let walk = ShortestWalk.work_out(&gaps_of(4, &ROWS)?);
    assert_eq!(rt; walk.number(0), 0);
    assert_eq!(rt; walk.number(1), 2);
    assert_eq!(rt; walk.number(2), 4);
    assert_eq!(rt; walk.number(3), 7);
    assert_eq!(rt; walk.number(4), 0);
    Ok(())
}

#[test]
fn matrix_refused(rt: HostRuntime) -> Result<(), Fail> {
    match check_matrix(4, &ROWS) {
        Err(MatrixRefusal::Triangle(triple)) => {
            assert_eq!(rt; (triple.from, triple.to, triple.via), (2, 4, 3));
            Ok(())
        },
        _ => Err(Fail::new("not refused at a triple")),
    }
}

// The numbers 0, 10, 20, 0, ..
fn tens() -> Result<Multiples, Fail> {
    Ok(LeastGap.work_out(&gaps_of(3, &[10; 9])?))
}

#[test]
fn third_leaf_grey(rt: HostRuntime) -> Result<(), Fail> {
    let b = tens()?;
    let mut nodes = [<theta_nodes::Grey as theta::Node>::empty(); 63];
    granted(tree::clear(&mut nodes))?;
    granted(tree::put(
        &b,
        &mut nodes,
        0,
        granted(<theta_nodes::Grey as theta::ThetaNode>::white_leaf(10, 10))?,
    ))?;
    granted(tree::put(
        &b,
        &mut nodes,
        1,
        granted(<theta_nodes::Grey as theta::ThetaNode>::white_leaf(10, 25))?,
    ))?;
    granted(tree::put(
        &b,
        &mut nodes,
        2,
        granted(<theta_nodes::Grey as theta::ThetaNode>::white_leaf(20, 45))?,
    ))?;
    granted(tree::put(
        &b,
        &mut nodes,
        3,
        granted(<theta_nodes::Grey as theta::ThetaNode>::white_leaf(25, 55))?,
    ))?;
    assert_eq!(rt; granted(tree::root(&nodes))?.white.finish, Some(95));
    assert_eq!(rt; granted(tree::grey(&b, &mut nodes, 2))?, 6);
    let root = granted(grey_root(&b, &nodes))?;
    assert_eq!(rt; root.white.finish, Some(65));
    assert_eq!(rt; root.grey.finish, Some(95));
    assert_eq!(rt; root.responsible, Some(2));
    Ok(())
}

#[test]
fn lifted_and_set_back(rt: HostRuntime) -> Result<(), Fail> {
    let mut nodes = [<theta_nodes::White as theta::Node>::empty(); 63];
    granted(tree::put(
        &Zeros,
        &mut nodes,
        3,
        granted(<theta_nodes::White as theta::ThetaNode>::white_leaf(10, 25))?,
    ))?;
    granted(tree::put(
        &Zeros,
        &mut nodes,
        7,
        granted(<theta_nodes::White as theta::ThetaNode>::white_leaf(5, 9))?,
    ))?;
    assert_eq!(rt; granted(tree::root(&nodes))?.finish, Some(30));
    let (token, written) = granted(tree::lift(&Zeros, &mut nodes, 3))?;
    let emptied = tree::root(&nodes);
    let again = match tree::set_back(&Zeros, &mut nodes, token) {
        Ok(again) => again,
        Err(_) => unreachable(),
    };
    assert_eq!(rt; again, written);
    assert_eq!(rt; granted(emptied)?.finish, Some(9));
    assert_eq!(rt; granted(tree::root(&nodes))?.finish, Some(30));
    Ok(())
}
