//! The law of the world, the contract of a function that does nothing.

ghost use Rattle.std.specs.Prelude.{◌≡◌, ◌⊎◌, ℕ, ℤ, true, false, List, [], ◌∷◌, Some, None};
ghost use Rattle.std.specs.Int.{is_negative};
ghost use Rattle.std.specs.Option.{is_some};
ghost use Rattle.tk_types.specs.declared.answer.Answer.{Answer};
ghost use Rattle.tk_types.specs.declared.answer.Outcome.TheVariants.{Returned};
ghost use Rattle.tk_types.specs.declared.answer.Who.{Who};
ghost use Rattle.tk_types.specs.declared.calls.DeviceCall.TheVariants as call;
ghost use Rattle.tk_types.specs.declared.run.Mode.{Mode};
ghost use Rattle.tk_types.specs.declared.script.Script.{Script};
ghost use Rattle.kernel_model.specs.Words.Checks.{natural};
ghost use Rattle.kernel_model.specs.Words.Orders.{entry};
ghost use Rattle.device_model.specs.declared.messages.Ending.{Ending};
ghost use Rattle.device_model.specs.declared.messages.Request.{Request};
ghost use Rattle.device_model.specs.Devices.Calls.{device_call};
ghost use Rattle.device_model.specs.Devices.Endings.{DevParts};
ghost use Rattle.device_model.specs.Devices.Servings.{serve_endings};
ghost use Rattle.device_model.specs.Devices.Tables.{Devices, Row, dropped, has_ended, link_at, row_at};
ghost use Rattle.device_laws.specs.Claims.{HandsOut, Serves};
ghost use Rattle.device_laws.specs.Requests.{AreApart, IsGone, StaysSo};
ghost use Rattle.machine_model.specs.Events.Arrivals.{arrived};
ghost use Rattle.world_model.specs.Roads.{Road, roads_from};
ghost use Rattle.world_model.specs.Worlds.{Step, all_stepped, devices_of, road_at, stepped, world_after};
ghost use Rattle.world_laws.specs.Requests.{HandsOutOwn, IsAbortAsked};
ghost use Rattle.world_laws.specs.Sound.{AbortsFit, AreFew, Each, IsMade, IsRight, WorksOn, one_if, places, untaken};
ghost use Rattle.world_laws.specs.Words.{Everywhere, OnEachRoad};

/// Kernel and drivers, in whatever order they do their steps, agree on every request. In every world:
///
/// each device of the script has a road and a driver (`there`, `linked`). At most one request is with the driver, and it stands in
/// exactly one place (`one_place`): as a Serve that wasn't taken, which is whole (`messages`), as what the driver works on, as an
/// ending that is ready, or in the outbox. Each Abort names that request and was asked, or it names one that has ended and stands
/// before the next Serve (`aborts`). While the driver works on the request its store is the kernel's with the blocks that were
/// done (`working`); an ending that is ready or sent is fit, and the store is then what the unit leaves that ends so (`ready`,
/// `sent`); else the store is the kernel's (`store`). A Stop is given only once the run is over (`messages`, `stopped`), and of
/// messages that weren't taken there are fewer than four until then (`few`).
///
/// An ending that comes out of an outbox is always fit (`fit`). No two requests have one serial (`apart`); one that has ended
/// stays just as it ended, while it is there (`ended`), and one that was let go never comes back (`gone`). It was completed where
/// its error is E_OK, aborted where it is E_ABORT, and failed with any other; and it ends aborted only where its driver had it and
/// was asked to abort it (`aborted`).
///
/// What `tk_wai_dev` hands out is the ending of a request of the descriptor that it names, of the very request unless it asks with
/// 0 (`call`); what any call gets that waited for an ending is the same of what it waits for (`serving`). `tk_srea_dev` and
/// `tk_swri_dev` that answer at once were refused, or hand out the ending of the request that they made, which was for the event
/// buffer (`own_read`, `own_write`). And an ending is handed out once, since the request is let go with it (`once`).
pub fn world()
    ensures there { (script : Script) (mode : Mode) (budget : ℕ) (steps : List Step) (d : ℕ) →
        is_some (road_at (world_after script mode budget steps) d) ≡ is_some (entry (None ∷ roads_from 1 script.devices) d) }
    ensures linked { Everywhere (λ w. (d : ℕ) → is_some (link_at (devices_of w) d) ≡ is_some (road_at w d)) }
    ensures one_place { OnEachRoad (λ over d link road. places road ≡ one_if link.given) }
    ensures messages { OnEachRoad (λ over d link road. Each (IsRight over d link) (untaken road)) }
    ensures aborts { OnEachRoad (λ over d link road. AbortsFit link false (untaken road)) }
    ensures few { OnEachRoad (λ over d link road. AreFew over link (untaken road)) }
    ensures working { OnEachRoad (λ over d link road. (request : Request) → road.core.given ≡ Some request → WorksOn link road.core request) }
    ensures ready { OnEachRoad (λ over d link road. (ending : Ending) → road.core.ready ≡ Some ending → IsMade link road.core ending) }
    ensures sent { OnEachRoad (λ over d link road. Each (IsMade link road.core) road.outbox) }
    ensures store { OnEachRoad (λ over d link road. road.core.given ≡ None → road.core.ready ≡ None → road.outbox ≡ [] → road.core.store ≡ link.store) }
    ensures stopped { OnEachRoad (λ over d link road. road.core.stopped ≡ true → over ≡ true) }
    ensures fit { Everywhere (λ w. (d : ℕ) (road : Road) (ending : Ending) (later : List Ending) → w.over ≡ None → road_at w d ≡ Some road →
        road.outbox ≡ ending ∷ later → is_some (arrived w.script w.mode w.state ending) ≡ true) }
    ensures apart { Everywhere (λ w. AreApart (devices_of w)) }
    ensures ended { Everywhere (λ w. (steps : List Step) (id : ℕ) (row : Row) → row_at (devices_of w) id ≡ Some row → has_ended row.life ≡ true →
        StaysSo row (devices_of (all_stepped w steps))) }
    ensures gone { Everywhere (λ w. (steps : List Step) (serial : ℕ) → IsGone serial (devices_of w) → IsGone serial (devices_of (all_stepped w steps))) }
    ensures aborted { Everywhere (λ w. (s : Step) → IsAbortAsked (devices_of w) (devices_of (stepped w s))) }
    ensures call { (p : DevParts) (who : Who) (descriptor named timeout : ℤ) (answer : Answer) →
        (device_call p who (call.WaiDev descriptor named timeout)).outcome ≡ Returned answer → is_negative answer.value ≡ false →
        HandsOut p (natural descriptor) (natural named) answer (device_call p who (call.WaiDev descriptor named timeout)).parts }
    ensures serving { (p after : DevParts) → serve_endings p ≡ Some after → (dd : ℕ) × Serves p dd after }
    ensures own_read { (p : DevParts) (who : Who) (descriptor start address size : ℤ) (answer : Answer) →
        (device_call p who (call.SreaDev descriptor start address size)).outcome ≡ Returned answer →
        ((device_call p who (call.SreaDev descriptor start address size)).parts ≡ p)
        ⊎ HandsOutOwn p (natural descriptor) answer (device_call p who (call.SreaDev descriptor start address size)).parts }
    ensures own_write { (p : DevParts) (who : Who) (descriptor start address size : ℤ) (answer : Answer) →
        (device_call p who (call.SwriDev descriptor start address size)).outcome ≡ Returned answer →
        ((device_call p who (call.SwriDev descriptor start address size)).parts ≡ p)
        ⊎ HandsOutOwn p (natural descriptor) answer (device_call p who (call.SwriDev descriptor start address size)).parts }
    ensures once { (dv : Devices) (id : ℕ) (row : Row) → AreApart dv → row_at dv id ≡ Some row → has_ended row.life ≡ true → IsGone row.serial (dropped dv id) }
{}
