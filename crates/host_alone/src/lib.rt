// One host by itself: operations come in, it times out, refreshes its map, stops. Each event gives the host after it, or why it is
// refused.
#![tactic(auto, unfolding(rules::specs::Codes::code_of))]

ghost use Rattle.std.specs.Prelude.{◌≡◌};
ghost use Rattle.rules.specs.Codes.{ruled};
ghost use Rattle.rules.specs.Hosts.{intake_refusals, appended, timeout_refusals, timed_out, working_refusals, refreshed, stopped};

use rules::{Attempt, Epoch, Host, Operation, Refused};

// "1 read (host, block); 2 write (host, block, value). Stopped: 2. Full: 4. Else appended".
#[tactic(auto, unfolding(rules::specs::Codes::code_of, rules::specs::Hosts::appended))]
pub fn intake(h: Host, o: Operation) -> Result<Host, Refused>
    ensures { result ≡ ruled (intake_refusals h) (appended h o) }
{
    if !h.working {
        return Err(Refused::NotInState);
    }
    if h.queue.count >= rules::OPERATIONS as u64 {
        return Err(Refused::QueueFull);
    }
    Ok(Host {
        queue: host_operations::with_last(h.queue, o),
        ..h
    })
}

// "needs working, something outstanding (2). Okay false, nothing outstanding".
pub fn time_out(h: Host) -> Result<Host, Refused>
    ensures { result ≡ ruled (timeout_refusals h) (timed_out h) }
{
    if !h.working || table_sets::is_empty(h.attempt.outstanding) {
        return Err(Refused::NotInState);
    }
    Ok(Host {
        attempt: Attempt {
            okay: false,
            outstanding: table_zero::set(),
            ..h.attempt
        },
        ..h
    })
}

// "8 refresh (host): working (2). Epoch known becomes the store's, map current".
pub fn refresh(h: Host, epoch: Epoch) -> Result<Host, Refused>
    ensures { result ≡ ruled (working_refusals h) (refreshed h epoch) }
{
    if !h.working {
        return Err(Refused::NotInState);
    }
    Ok(Host {
        epoch,
        mapped: true,
        ..h
    })
}

// "10 stop (host), once; its other fields stay".
pub fn stop(h: Host) -> Result<Host, Refused>
    ensures { result ≡ ruled (working_refusals h) (stopped h) }
{
    if !h.working {
        return Err(Refused::NotInState); // no second stop
    }
    Ok(Host {
        working: false,
        ..h
    })
}
