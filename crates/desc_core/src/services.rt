//! The services of flows: their refusals, and the flows that they restrict.
ghost use Rattle.std.specs.Prelude.{◌≡◌, [], length, map, IsTrue, OnOk};
ghost use Rattle.desc_core.specs.Description.{ok_unless_refused};
ghost use Rattle.desc_core.specs.RawNetwork.{declared_services};
ghost use Rattle.desc_core.specs.inner.Parts.{narrowed_among, with_services, within_limit};
ghost use Rattle.desc_core.specs.inner.Reads.{Reads};
ghost use Rattle.desc_core.specs.UseConditions.{bad_service_of, many_services, service_conditions};
ghost use Rattle.desc_core.specs.declared.fault.DescFault.TheVariants.{Refused};
ghost use Rattle.desc_form.specs.Refusals.{refused_item};
ghost use Rattle.desc_form.specs.inner.RawView.{flow_view};
ghost use Rattle.desc_form.specs.declared.refusal.Place.TheVariants.{FlowAt};
ghost use Rattle.desc_form.specs.declared.refusal.Why.TheVariants.{BadService};
ghost use Rattle.flow_set.specs.Flow.{same_flow};
ghost use Rattle.host_net.specs.Services.{services_of};
ghost use Rattle.text_core.specs.FirstMatch.{first_of};
ghost use Rattle.text_core.specs.inner.Pairs.{no_pair};

use crate::fault::DescFault;
use desc_form::{Place, RawFlow, Refusal, Why};
use flow_set::Flow;
use host_net::{SERVICE_LIMIT, Services, read_service};
use std::alloc::Global;

/// The item number of the first service of a flow: it follows the two names.
const FIRST_SERVICE: u64 = 3;

/// Returns the services of the flows, or the refusal of the first string that denotes no service,
/// otherwise that of the first flow with too many services. The two lists are parallel: each raw
/// flow has its hosts at the same index.
pub(crate) fn read_services(
    alloc: Global,
    flows: &[Flow],
    written: &[RawFlow<'_>],
) -> Result<Services, DescFault>
    requires beside { length flows.now ≡ length written.now }
    requires different { IsTrue (no_pair same_flow flows.now) }
    ensures { Reads result (ok_unless_refused (first_of (service_conditions (map flow_view written.now))) (narrowed_among flows.now (map flow_view written.now))) }
{
    let mut services = Services::new(alloc);
    for (index, flow) in written.iter().enumerate() {
        add_services(&mut services, index as u64 + 1, flows[index], flow)?;
    }
    match many_services(written) {
        Some(refusal) => Err(DescFault::Refused(refusal)),
        None => Ok(services),
    }
}

/// Adds the services of the flow with a number, if they are within the limit, or returns the
/// refusal of its first string that denotes no service.
fn add_services(
    services: &mut Services,
    number: u64,
    flow: Flow,
    written: &RawFlow<'_>,
) -> Result<(), DescFault>
    requires { services_of services.old flow.from flow.to ≡ [] }
    ensures bad { Reads result (ok_unless_refused (bad_service_of (record { number = number; what = flow_view written.now })) tt) }
    ensures added { OnOk result (services.new ≡ with_services services.old flow (declared_services (within_limit (flow_view written.now)))) }
{
    for (index, text) in written.services.iter().enumerate() {
        let Some(service) = read_service(text.as_bytes()) else {
            return Err(no_service(number, index as u64 + FIRST_SERVICE));
        };
        if written.services.len() <= SERVICE_LIMIT {
            services.add(flow.from, flow.to, service)?;
        }
    }
    Ok(())
}

/// Returns the refusal of a string of a flow that denotes no service.
fn no_service(flow: u64, item: u64) -> DescFault
    ensures { result ≡ Refused (refused_item BadService (FlowAt flow) item) }
{
    let refusal = Refusal::at(Why::BadService, Place::FlowAt(flow));
    DescFault::Refused(refusal.with_item(item))
}

/// Returns the refusal of a flow with more services than the limit.
fn many_services(flows: &[RawFlow<'_>]) -> Option<Refusal>
    ensures { result ≡ many_services (map flow_view flows.now) }
{
    for (index, flow) in flows.iter().enumerate() {
        if flow.services.len() > SERVICE_LIMIT {
            let place = Place::FlowAt(index as u64 + 1);
            return Some(Refusal::at(Why::ManyServices, place));
        }
    }
    None
}
