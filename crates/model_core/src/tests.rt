ghost use Rattle.std.specs.Prelude.{◌≡◌, length, IfOk, IsSome};

use super::*;
use std::alloc::{AllocError, Global};
use std::test::Fail;
use text_lines::Name;

// The first goes to the second and the third, the second to itself, the third to the first.
fn three_states(alloc: Global) -> Result<Tra, AllocError>
    ensures { IfOk result (λ tra. tra.n ≡ 3) }
{
    let rates = vec![in alloc;
        Rate {
            from: 2,
            to: 0,
            rate: 5
        },
        Rate {
            from: 0,
            to: 2,
            rate: 7
        },
        Rate {
            from: 1,
            to: 1,
            rate: 4
        },
        Rate {
            from: 0,
            to: 1,
            rate: 3
        },
    ]?;
    Ok(Tra::new(3, 1, rates))
}

fn two_labels(alloc: Global) -> Result<Lab, AllocError>
    ensures names { IfOk result (λ lab. length lab.names ≡ 2) }
    ensures marks { IfOk result (λ lab. length lab.marks ≡ 3) }
{
    let up = Name::new(b"up".to_vec(alloc)?);
    let down = Name::new(b"down_2".to_vec(alloc)?);
    let names = vec![in alloc; up, down]?;
    Ok(Lab::new(names, vec![in alloc; 0b01, 0b10, 0b11]?))
}

fn rewards(alloc: Global) -> Result<Rew, AllocError>
    ensures { IfOk result (λ rew. length rew.rewards ≡ 3) }
{
    Ok(Rew::new(2, vec![in alloc; 100, 0, 250]?))
}

fn model(alloc: Global) -> Result<Model, AllocError>
    ensures states { IfOk result (λ model. model.n ≡ 3) }
    ensures labels { IfOk result (λ model. length model.names ≡ 2) }
    ensures rewards { IfOk result (λ model. IsSome model.rewards) }
{
    let rewards = rewards(alloc)?;
    Model::build(
        alloc,
        three_states(alloc)?,
        two_labels(alloc)?,
        Some(rewards),
    )
}

#[test]
fn a_model_has_its_states_in_rows(rt: HostRuntime) -> Result<(), Fail> {
    let alloc = rt.alloc();
    let model = model(alloc)?;
    assert_eq!(rt; three_states(alloc)?.n(), 3);
    assert_eq!(rt; model.n(), 3);
    assert_eq!(rt; model.scale(), 1);
    let first = [
        Rate {
            from: 0,
            to: 1,
            rate: 3,
        },
        Rate {
            from: 0,
            to: 2,
            rate: 7,
        },
    ];
    assert_eq!(rt; model.row(0), first.as_slice());
    assert_eq!(rt;
        model.row(2),
        [Rate {
            from: 2,
            to: 0,
            rate: 5
        }]
        .as_slice()
    );
    Ok(())
}

#[test]
fn a_model_has_its_rates(rt: HostRuntime) -> Result<(), Fail> {
    let model = model(rt.alloc())?;
    assert_eq!(rt; model.rate(0, 0), 0);
    assert_eq!(rt; model.rate(0, 1), 3);
    assert_eq!(rt; model.rate(1, 1), 4);
    assert_eq!(rt; model.rate(2, 2), 0);
    assert_eq!(rt; model.exit(0), 10);
    assert_eq!(rt; model.exit(1), 4);
    Ok(())
}

#[test]
fn a_model_has_its_labels(rt: HostRuntime) -> Result<(), Fail> {
    let model = model(rt.alloc())?;
    assert!(rt; model.has(0, 0));
    assert!(rt; !model.has(0, 1));
    assert!(rt; !model.has(1, 0));
    assert!(rt; model.has(1, 1));
    let mut labels = model.labels().iter().map(|name| name.bytes());
    assert_eq!(rt; labels.next(), Some(b"up".as_slice()));
    assert_eq!(rt; labels.next(), Some(b"down_2".as_slice()));
    assert_eq!(rt; labels.next(), None);
    Ok(())
}

#[test]
fn a_model_may_have_rewards(rt: HostRuntime) -> Result<(), Fail> {
    let alloc = rt.alloc();
    let with = model(alloc)?;
    assert!(rt; with.has_rewards());
    assert_eq!(rt; with.reward_scale(), 2);
    assert_eq!(rt; with.reward(0), 100);
    assert_eq!(rt; with.reward(1), 0);
    assert_eq!(rt; with.reward(2), 250);
    let without = Model::build(alloc, three_states(alloc)?, two_labels(alloc)?, None)?;
    assert!(rt; !without.has_rewards());
    assert_eq!(rt; without.reward_scale(), 0);
    Ok(())
}
