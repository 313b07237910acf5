ghost use Rattle.std.specs.Prelude.{◌≡◌, [], true, IfOk};

use build_pool::{Binds, BuildPool, BuildStop, Builder, Order};
use dep_atom::PackageId;
use file_tree::Entry;
use pms_names::{Flags, SlotName};
use std::test::Fail;

// A builder with one image for every order. One that fails does so at each start.
#[derive(Drop)]
struct Scripted {
    number: u32,
    faults: u64,
    fails: bool,
    image: Vec<Entry>,
}

impl Builder for Scripted {
    ghost use Rattle.std.specs.Prelude.{true, length};

    ghost tells = { true };

    ghost number = { λ b. b.number };

    ghost faults = { λ b. b.faults };

    ghost told = { λ b _. b.image.items };

    ghost started = { λ b. length b.image.items };

    ghost image = { λ b. b.image.items };

    fn id(&self) -> u32 {
        self.number
    }

    fn fault_count(&self) -> u64 {
        self.faults
    }

    fn start(&mut self, _order: &Order) -> Result<u32, BuildStop> {
        if self.fails {
            self.faults = self.faults.saturating_add(1);
            return Err(BuildStop::Failed);
        }
        u32::try_from(self.image.len()).map_err(|_| BuildStop::Memory)
    }

    fn entry(&mut self, index: u32) -> Result<Entry, BuildStop> {
        let entry = &self.image[index as usize];
        entry.try_clone().map_err(|_| BuildStop::Memory)
    }
}

fn failing(rt: &HostRuntime, number: u32, faults: u64) -> Scripted
    ensures { result.number ≡ number }
{
    Scripted {
        number,
        faults,
        fails: true,
        image: Vec::new(rt.alloc()),
    }
}

// The builders 1 and 2, which failed twice and five times.
fn pair(rt: &HostRuntime) -> Result<BuildPool<Scripted>, Fail>
    ensures { IfOk result (λ p. p.lent ≡ []) }
{
    let builders = vec![in rt.alloc(); failing(rt, 1, 2), failing(rt, 2, 5)]?;
    Ok(BuildPool::new(rt.alloc(), builders)?)
}

fn order(rt: &HostRuntime) -> Result<Order, Fail> {
    let alloc = rt.alloc();
    Ok(Order {
        id: PackageId::parse(alloc, "app", "tool-1")?,
        slot: SlotName::parse(alloc, "0")?,
        subslot: SlotName::parse(alloc, "0")?,
        enabled: Flags::new(alloc),
        binds: Binds::new(Vec::new(alloc)),
    })
}

#[test]
fn a_pool_of_one_gives_it_then_none(rt: HostRuntime) -> Result<(), Fail> {
    let builders = vec![in rt.alloc(); failing(&rt, 7, 0)]?;
    let mut pool = BuildPool::new(rt.alloc(), builders)?;
    assert_eq!(rt; pool.resting(), 1);
    let first = pool.lend().ok_or("none")?;
    assert_eq!(rt; first.id(), 7);
    assert_eq!(rt; pool.resting(), 0);
    assert!(rt; pool.lend().is_none());
    Ok(())
}

#[test]
fn faults_of_a_lent_builder_count_when_it_is_back(rt: HostRuntime) -> Result<(), Fail> {
    let mut pool = pair(&rt)?;
    assert_eq!(rt; pool.faults(), 7);
    let mut builder = pool.lend().ok_or("none")?;
    assert!(rt; builder.start(&order(&rt)?).is_err());
    assert_eq!(rt; pool.faults(), 7, "lent");
    pool.take_back(builder);
    assert_eq!(rt; pool.resting(), 2);
    assert_eq!(rt; pool.faults(), 8, "back");
    Ok(())
}

#[test]
fn faults_of_a_dropped_builder_stay(rt: HostRuntime) -> Result<(), Fail> {
    let mut pool = pair(&rt)?;
    let mut builder = pool.lend().ok_or("none")?;
    assert!(rt; builder.start(&order(&rt)?).is_err());
    pool.drop_failed(builder);
    assert_eq!(rt; pool.resting(), 1);
    assert_eq!(rt; pool.faults(), 8);
    Ok(())
}
