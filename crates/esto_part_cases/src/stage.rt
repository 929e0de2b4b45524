//! What matches, rules, plans and orders are asked about, and what is answered.

use crate::chasing::put_chase;
use crate::loading::load_files;
use crate::making::{RuleMade, put_fault, query_made, rule_made};
use crate::matching::{put_active, put_answers, put_broken, put_matches, query, rule, start_of};
use crate::orders::{ask_under, plan_of, put_plan};
use crate::reading::{facts, place};
use crate::worlds::{put_derivation, put_entries, put_listed, put_products_of};
use esto_catalog::read_catalogue;
use esto_constraint::Rules;
use esto_fill::{DatasetBytes, LoadList};
use esto_mapping::Catalogue;
use esto_prov::Entries;
use esto_query::{Facts, Query};
use esto_script::{Refused, let_go, put};
use esto_semantics::Valuation;
use esto_term::{Bytes, List};
use esto_views::Plan;
use std::alloc::Global;
use std::mem;

/// The catalogue, the files of datasets, the plan, the entries of a list, the facts, the start of matches, and the rules.
#[derive(Drop)]
pub struct Stage {
    catalogue: Catalogue,
    files: LoadList,
    plan: Option<Plan>,
    entries: Entries,
    facts: Facts,
    start: Valuation,
    rules: Rules,
}

fn catalogue_of(alloc: Global, bytes: &[u8]) -> Result<Catalogue, Refused> {
    read_catalogue(alloc, bytes).ok().ok_or(Refused)
}

impl Stage {
    /// The catalogue is empty, and nothing else is set.
    pub fn empty(alloc: Global) -> Result<Stage, Refused> {
        Ok(Stage {
            catalogue: catalogue_of(alloc, b"version = 1\n")?,
            files: List::new(alloc),
            plan: None,
            entries: Entries::new(alloc),
            facts: List::new(alloc),
            start: Valuation::new(alloc),
            rules: List::new(alloc),
        })
    }

    /// Takes these bytes for the catalogue, with no file of a dataset and no rule yet.
    pub fn open(&mut self, alloc: Global, bytes: &[u8]) -> Result<(), Refused> {
        let catalogue = catalogue_of(alloc, bytes)?;
        let_go(mem::replace(&mut self.catalogue, catalogue));
        self.files = List::new(alloc);
        self.rules = List::new(alloc);
        Ok(())
    }

    /// Takes these bytes for the file of the dataset of this number.
    pub fn add_file(&mut self, word: &str, bytes: Bytes) -> Result<(), Refused> {
        let dataset = place(word)?;
        self.files.push(DatasetBytes { dataset, bytes })?;
        Ok(())
    }

    /// Takes these facts.
    pub fn set_facts(&mut self, alloc: Global, line: &str) -> Result<(), Refused> {
        self.facts = facts(alloc, line)?;
        Ok(())
    }

    /// Gives variable 0 a term at the start of matches, or takes it away.
    pub fn set_start(&mut self, alloc: Global, word: &str) -> Result<(), Refused> {
        self.start = start_of(alloc, word)?;
        Ok(())
    }

    /// One more rule.
    pub fn add_rule(&mut self, alloc: Global, text: &str) -> Result<(), Refused> {
        self.rules.push(rule(alloc, &self.catalogue, text)?)?;
        Ok(())
    }

    /// No rule.
    pub fn forget_rules(&mut self, alloc: Global) {
        self.rules = List::new(alloc);
    }

    // Answers what the word asks about a query.
    fn put_asked(
        &self,
        rt: &HostRuntime,
        alloc: Global,
        word: &str,
        query: &Query,
    ) -> Result<(), Refused> {
        match word {
            "matches" => put_matches(rt, alloc, query, &self.facts, &self.start),
            "answers" => put_answers(rt, alloc, query, &self.facts),
            _ => put_chase(rt, alloc, &self.catalogue.schema, &self.rules, query),
        }
    }

    // Answers what is asked about the query that a text is.
    fn ask_query(
        &self,
        rt: &HostRuntime,
        alloc: Global,
        word: &str,
        text: &str,
    ) -> Result<(), Refused> {
        let query = query(alloc, &self.catalogue, text)?;
        self.put_asked(rt, alloc, word, &query)
    }

    // The least active match of a rule.
    fn active(&self, rt: &HostRuntime, alloc: Global, text: &str) -> Result<(), Refused> {
        let rule = rule(alloc, &self.catalogue, text)?;
        let outcome = put_active(rt, alloc, &rule, &self.facts);
        let_go(rule);
        outcome
    }

    // The least active match of the rule of this number.
    fn active_of(&self, rt: &HostRuntime, alloc: Global, word: &str) -> Result<(), Refused> {
        let number = place(word)?;
        match self.rules.items().get(number) {
            Some(rule) => put_active(rt, alloc, rule, &self.facts),
            None => Err(Refused),
        }
    }

    fn make_query(&self, rt: &HostRuntime, alloc: Global, line: &str) -> Result<(), Refused> {
        match query_made(alloc, &self.catalogue.schema, line)? {
            Ok(_) => put(rt, "made\n"),
            Err(fault) => put_fault(rt, fault),
        }
        Ok(())
    }

    // Keeps the rule, where one was made.
    fn keep_made(&mut self, rt: &HostRuntime, made: RuleMade) -> Result<(), Refused> {
        match made {
            Ok(rule) => {
                self.rules.push(rule)?;
                put(rt, "made\n");
            }
            Err(fault) => put_fault(rt, fault),
        }
        Ok(())
    }

    /// Makes a query or a rule. A rule is one more of the rules.
    pub fn make(
        &mut self,
        rt: &HostRuntime,
        alloc: Global,
        word: &str,
        rest: &str,
    ) -> Result<(), Refused> {
        if word == "make_query" {
            return self.make_query(rt, alloc, rest);
        }
        let made = rule_made(alloc, &self.catalogue.schema, word, rest)?;
        self.keep_made(rt, made)
    }

    // The plan of the query that a text is.
    fn plan_for(&self, alloc: Global, text: &str) -> Result<Plan, Refused> {
        let query = query(alloc, &self.catalogue, text)?;
        plan_of(alloc, &self.catalogue, &query)
    }

    /// Makes the plan of a query, and prints it.
    pub fn set_plan(&mut self, rt: &HostRuntime, alloc: Global, text: &str) -> Result<(), Refused> {
        let plan = self.plan_for(alloc, text)?;
        put_plan(rt, &plan, &self.catalogue.fragments);
        self.plan = Some(plan);
        Ok(())
    }

    // Prints the list of the query that a text is. The answer has the entries that it comes from.
    fn listed(&self, rt: &HostRuntime, alloc: Global, text: &str) -> Result<Entries, Refused> {
        let query = query(alloc, &self.catalogue, text)?;
        put_listed(rt, alloc, &self.catalogue, &query)
    }

    /// Makes the list of a query, and prints it.
    pub fn set_listed(
        &mut self,
        rt: &HostRuntime,
        alloc: Global,
        text: &str,
    ) -> Result<(), Refused> {
        self.entries = self.listed(rt, alloc, text)?;
        Ok(())
    }

    // Answers what is asked about the entries of the last list.
    fn ask_entries(
        &self,
        rt: &HostRuntime,
        alloc: Global,
        word: &str,
        rest: &str,
    ) -> Result<(), Refused> {
        match word {
            "entries" => put_entries(rt, &self.entries),
            "why" => return put_derivation(rt, alloc, &self.entries, rest),
            _ => return put_products_of(rt, alloc, &self.entries, rest),
        }
        Ok(())
    }

    // Answers what is asked about an atom of the plan, or a set of them.
    fn ask_plan(
        &self,
        rt: &HostRuntime,
        alloc: Global,
        word: &str,
        rest: &str,
    ) -> Result<(), Refused> {
        let Some(plan) = &self.plan else {
            return Err(Refused);
        };
        ask_under(rt, alloc, plan, &self.catalogue.fragments, word, rest)
    }

    /// Answers what is asked about the files, the facts, the rules and the plan.
    pub fn answer(
        &self,
        rt: &HostRuntime,
        alloc: Global,
        word: &str,
        rest: &str,
    ) -> Result<(), Refused> {
        match word {
            "loaded" => load_files(rt, alloc, &self.catalogue, &self.files),
            "matches" | "answers" | "chase" => self.ask_query(rt, alloc, word, rest),
            "active" => self.active(rt, alloc, rest),
            "active_of" => self.active_of(rt, alloc, rest),
            "meets" => put_broken(rt, alloc, &self.rules, &self.facts),
            "entries" | "why" | "products_of" => self.ask_entries(rt, alloc, word, rest),
            _ => self.ask_plan(rt, alloc, word, rest),
        }
    }
}
