//! Surveys: whether some packets of a service pass and whether some do not, and up to which service this
//! holds. A packet is tested for all later services at once, as long as the question has one result for them.

ghost use Rattle.std.specs.Prelude.{◌≡◌, ◌≤◌, ◌<◌, Bool, IfOk, length, map};
ghost use Rattle.std.specs.Bool.{Decides};
ghost use Rattle.std.specs.List.{All};
ghost use Rattle.host_net.specs.declared.packet.Packet.{Packet};
ghost use Rattle.host_net.specs.Packet.{IsPacket};
ghost use Rattle.header_space.specs.Boxes.{IsBox, IsIn, Narrows};
ghost use Rattle.pass_core.specs.Services.{service_of};
ghost use Rattle.pass_core.specs.inner.Areas.{IsArea, box_of};
ghost use Rattle.pass_core.specs.inner.Asking.{IsAsked, part_or};
ghost use Rattle.pass_core.specs.inner.Numbers.{number};
ghost use Rattle.pass_core.specs.inner.Surveying.{AreFellows, Grows, HasService, IsKnown, IsSurvey, Raises, noted};

use crate::area::Area;
use crate::asked_area::AskedArea;
use crate::service::Service;
use header_space::{PacketBox, Question, Visitor, visit_all};
use host_net::Packet;
use std::alloc::{AllocError, Global};

/// The results for the packets of the services from `first` to `last`.
#[derive(Clone, Copy)]
pub(crate) struct Survey {
    pub(crate) first: Service,
    pub(crate) last: Service,
    /// A packet that passes.
    pub(crate) passes: Option<Packet>,
    /// A packet that does not pass.
    pub(crate) stays: Option<Packet>,
}

impl Survey {
    /// Records that a packet passes, or that it does not.
    fn note(&mut self, passes: bool, packet: Packet)
        ensures { self.new ≡ noted self.old passes packet }
    {
        if passes {
            self.passes = Some(packet);
        } else {
            self.stays = Some(packet);
        }
    }
}

/// A survey, with the question that extends it.
#[derive(Drop)]
struct Surveyor<'a, Q> {
    question: &'a Q,
    survey: Survey,
}

/// Whether packets pass, and the last service up to which this holds.
#[derive(Clone, Copy)]
struct Answer {
    passes: bool,
    last: Service,
}

/// Returns whether the least packet of a box passes, and the last service up to which this holds. Narrows the
/// box until, up to this service, all fellows of its packets have the same result. Fellows differ at most in
/// their services.
fn ask<Q: Question>(question: &Q, within: &mut PacketBox, last: Service) -> Answer
    requires { IsBox within.old }
    ensures part { Narrows within.old within.new }
    ensures low { service_of within.old.least ≤ number result.last }
    ensures alike { (q f : Packet) → IsIn within.new q → AreFellows q f → IsPacket f → service_of within.old.least ≤ service_of f
        → service_of f ≤ number result.last → Decides result.passes (Q.holds_of question.now f) }
{
    let mut part = raised(within, last);
    let passes = question.ask(&mut part);
    within.greatest.src = part.greatest.src;
    within.greatest.dst = part.greatest.dst;
    within.greatest.sport = part.greatest.sport;
    Answer {
        passes,
        last: last_alike(&part),
    }
}

/// Returns the box extended by packets of later services, up to `last`, that are otherwise like its packets.
fn raised(within: &PacketBox, last: Service) -> PacketBox
    requires { IsBox within.now }
    ensures { Raises within.now result }
{
    let proto = within.least.proto;
    let port = within.least.dport;
    PacketBox {
        least: within.least,
        greatest: Packet {
            proto: proto.max(last.proto),
            dport: if last.proto > proto {
                u16::MAX
            } else {
                port.max(last.port)
            },
            ..within.greatest
        },
    }
}

/// Returns the last service that a box contains without a gap from its least service.
pub(crate) fn last_alike(part: &PacketBox) -> Service
    requires { IsBox part.now }
    ensures low { service_of part.now.least ≤ number result }
    ensures inside { (f : Packet) → IsPacket f → service_of part.now.least ≤ service_of f → service_of f ≤ number result → HasService part.now f }
{
    if part.least.dport == 0 && part.greatest.dport == u16::MAX {
        return Service {
            proto: part.greatest.proto,
            port: u16::MAX,
        };
    }
    Service {
        proto: part.least.proto,
        port: part.greatest.dport,
    }
}

impl<'a, Q: Question> Visitor for Surveyor<'a, Q> {
    ghost use Rattle.pass_core.specs.inner.Surveying.{GrowsBy, IsKnown};
    ghost use Rattle.pass_core.specs.laws.SurveyLaws.{grows_by_none, grows_by_both, grows_by_more, keeps};

    ghost knows = { λ s p. IsKnown (Q.holds_of s.question.now) s.survey p };

    ghost grows = { λ b x y. GrowsBy Q.holds_of x.question.now y.question.now b x.survey y.survey };

    fn visit(&mut self, within: &mut PacketBox) {
        let packet = within.least;
        // The question is not evaluated for packets of another service.
        if !self.survey.first.is_of(&packet) {
            within.greatest.proto = packet.proto;
            within.greatest.dport = packet.dport;
            return;
        }
        let answer = ask(self.question, within, self.survey.last);
        self.survey.last = self.survey.last.min(answer.last);
        self.survey.note(answer.passes, packet);
    }

    ghost grows_by_none = { λ b x. grows_by_none Q.holds_of x.question.now b x.survey };

    ghost grows_by_both = { λ b x y z one two. grows_by_both Q.holds_of x.question.now y.question.now z.question.now b x.survey y.survey z.survey one two };

    ghost grows_by_more = { λ b part x y only grows. grows_by_more Q.holds_of x.question.now y.question.now b part x.survey y.survey only grows };

    ghost keeps = { λ b x y p grows known. keeps Q.holds_of x.question.now y.question.now b x.survey y.survey p grows known };
}

/// Surveys the packets of the areas, from the service `first` on.
pub(crate) fn survey_areas<Q: Question>(
    alloc: Global,
    question: &Q,
    areas: &[AskedArea<Q>],
    first: Service,
) -> Result<Survey, AllocError>
    requires areas { All (λ a. IsAsked (Q.holds_of question.now) a.area (Q.holds_of (part_or question.now a.part))) areas.now }
    requires some { 0 < length areas.now }
    ensures { IfOk result (IsSurvey (Q.holds_of question.now) (map (λ a. a.area) areas.now) (number first)) }
{
    let mut survey = Survey {
        first,
        last: first.end(),
        passes: None,
        stays: None,
    };
    for area in areas {
        survey = survey_area(alloc, area.question(question), area.area, survey)?;
    }
    Ok(survey)
}

/// Extends a survey by the packets of an area.
fn survey_area<Q: Question>(
    alloc: Global,
    question: &Q,
    area: Area,
    survey: Survey,
) -> Result<Survey, AllocError>
    requires { IsArea area }
    ensures grows { IfOk result (Grows (Q.holds_of question.now) (box_of area survey.first) survey) }
    ensures knows { IfOk result (λ new. (p : Packet) → IsIn (box_of area survey.first) p → IsKnown (Q.holds_of question.now) new p) }
    ensures packets { IfOk result (λ _. (p : Packet) → IsIn (box_of area survey.first) p → IsPacket p) }
{
    let mut surveyor = Surveyor { question, survey };
    visit_all(alloc, &mut surveyor, area.packets_of(survey.first))?;
    Ok(surveyor.survey)
}
